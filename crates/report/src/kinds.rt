// The names of the kinds of an event: the crate's, less a leading `Mdx`, in lower case with hyphens.
ghost use Rattle.std.specs.Prelude.{◌≡◌, [], ◌∷◌};
ghost use Rattle.report.specs.Name.{kind_name, expression_name, tag_name, attribute_name, last_name};
ghost use Rattle.report.specs.Put.{outcome, put_of};

use crate::pieces::text;
use base::kind;

// A number that is no kind's is `unknown`: docs/PROMISES.md has it take every number, so it takes no enum.
pub fn kind_name(out: &mut [u8], at: usize, kind: u32) -> usize
    ensures { outcome result out.new ≡ put_of out.old at (kind_name kind ∷ []) }
{
    text(out, at, name(kind))
}

#[tactic(auto, using(base::proofs::Choice::picks), unfolding(crate::specs::Name::kind_name, crate::specs::Name::last_name, base::specs::Table::find))]
fn name(kind: u32) -> &'static [u8]
    ensures { result.now ≡ kind_name kind }
{
    match u8::try_from(kind) {
        Ok(number) => name_of(number),
        Err(_) => b"unknown",
    }
}

#[tactic(auto, using(base::proofs::Choice::picks), unfolding(crate::specs::Name::kind_name))]
fn name_of(number: u8) -> &'static [u8]
    ensures { result.now ≡ kind_name number }
{
    if number < kind::JSX_FLOW_TAG {
        return expression_name(number);
    }
    if number < kind::JSX_TAG_ATTRIBUTE_EXPRESSION {
        return tag_name(number);
    }
    if number < kind::JSX_ES_WHITESPACE {
        return attribute_name(number);
    }
    last_name(number)
}

#[tactic(auto, using(base::proofs::Choice::picks), unfolding(crate::specs::Name::expression_name, base::specs::Table::find))]
fn expression_name(number: u8) -> &'static [u8]
    ensures { result.now ≡ expression_name number }
{
    match number {
        kind::FLOW_EXPRESSION => b"flow-expression",
        kind::TEXT_EXPRESSION => b"text-expression",
        kind::EXPRESSION_MARKER => b"expression-marker",
        kind::LINE_ENDING => b"line-ending",
        kind::EXPRESSION_DATA => b"expression-data",
        kind::LINE_PREFIX => b"line-prefix",
        _ => b"unknown",
    }
}

#[tactic(auto, using(base::proofs::Choice::picks), unfolding(crate::specs::Name::tag_name, base::specs::Table::find))]
fn tag_name(number: u8) -> &'static [u8]
    ensures { result.now ≡ tag_name number }
{
    match number {
        kind::JSX_FLOW_TAG => b"jsx-flow-tag",
        kind::JSX_TEXT_TAG => b"jsx-text-tag",
        kind::JSX_TAG_MARKER => b"jsx-tag-marker",
        kind::JSX_TAG_CLOSING_MARKER => b"jsx-tag-closing-marker",
        kind::JSX_TAG_NAME => b"jsx-tag-name",
        kind::JSX_TAG_NAME_PRIMARY => b"jsx-tag-name-primary",
        kind::JSX_TAG_NAME_MEMBER_MARKER => b"jsx-tag-name-member-marker",
        kind::JSX_TAG_NAME_PREFIX_MARKER => b"jsx-tag-name-prefix-marker",
        kind::JSX_TAG_NAME_MEMBER => b"jsx-tag-name-member",
        kind::JSX_TAG_NAME_LOCAL => b"jsx-tag-name-local",
        kind::JSX_TAG_SELF_CLOSING_MARKER => b"jsx-tag-self-closing-marker",
        _ => b"unknown",
    }
}

#[tactic(auto, using(base::proofs::Choice::picks), unfolding(crate::specs::Name::attribute_name, base::specs::Table::find))]
fn attribute_name(number: u8) -> &'static [u8]
    ensures { result.now ≡ attribute_name number }
{
    match number {
        kind::JSX_TAG_ATTRIBUTE_EXPRESSION => b"jsx-tag-attribute-expression",
        kind::JSX_TAG_ATTRIBUTE => b"jsx-tag-attribute",
        kind::JSX_TAG_ATTRIBUTE_NAME => b"jsx-tag-attribute-name",
        kind::JSX_TAG_ATTRIBUTE_PRIMARY_NAME => b"jsx-tag-attribute-primary-name",
        kind::JSX_TAG_ATTRIBUTE_NAME_PREFIX_MARKER => b"jsx-tag-attribute-name-prefix-marker",
        kind::JSX_TAG_ATTRIBUTE_INITIALIZER_MARKER => b"jsx-tag-attribute-initializer-marker",
        kind::JSX_TAG_ATTRIBUTE_NAME_LOCAL => b"jsx-tag-attribute-name-local",
        kind::JSX_TAG_ATTRIBUTE_VALUE_LITERAL => b"jsx-tag-attribute-value-literal",
        kind::JSX_TAG_ATTRIBUTE_VALUE_LITERAL_MARKER => b"jsx-tag-attribute-value-literal-marker",
        kind::JSX_TAG_ATTRIBUTE_VALUE_EXPRESSION => b"jsx-tag-attribute-value-expression",
        kind::JSX_TAG_ATTRIBUTE_VALUE_LITERAL_VALUE => b"jsx-tag-attribute-value-literal-value",
        _ => b"unknown",
    }
}

#[tactic(auto, using(base::proofs::Choice::picks), unfolding(crate::specs::Name::last_name, base::specs::Table::find))]
fn last_name(number: u8) -> &'static [u8]
    ensures { result.now ≡ last_name number }
{
    match number {
        kind::JSX_ES_WHITESPACE => b"jsx-es-whitespace",
        kind::ESM => b"esm",
        kind::ESM_DATA => b"esm-data",
        _ => b"unknown",
    }
}
