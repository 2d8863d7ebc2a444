// The kind of body that a scan asks about: what the Rust tells its callbacks, `MdxExpressionKind` for expressions, and a callback of its
// own for ESM.
ghost use Rattle.std.specs.Prelude.{◌≡◌};
ghost use Rattle.tokenizer.specs.Decision.{expression_token};
ghost use Rattle.mdx_collect.specs.Kind.{kind_of_token, body_kind};

use crate::is_asked;
use base::state;
use scan::Scan;

// The kinds are numbers, and 0 is none, since they cross to C as they are, in `View` and `BodyNumbers`.
//
// The scan asks about nothing.
pub const NO_BODY: u8 = 0;

// An expression that stands alone, an attribute that is an expression, an attribute's value, a block.
pub const EXPRESSION_BODY: u8 = 1;

pub const ATTRIBUTE_EXPRESSION_BODY: u8 = 2;

pub const ATTRIBUTE_VALUE_BODY: u8 = 3;

pub const ESM_BODY: u8 = 4;

// Of an expression: in a tag it is known by where the expression returns to.
//
//     > | {a}     > | <b {...a} />     > | <b c={a} />
//         ^ 1                ^ 2                  ^ 3
#[tactic(auto, using(base::proofs::Choice::picks))]
fn expression_kind(text: u8, back: u8) -> u8
    ensures { result ≡ kind_of_token (expression_token text back) }
{
    if back == state::MDX_JSX_ATTRIBUTE_EXPRESSION_AFTER {
        return ATTRIBUTE_EXPRESSION_BODY;
    }
    if back == state::MDX_JSX_ATTRIBUTE_VALUE_EXPRESSION_AFTER {
        return ATTRIBUTE_VALUE_BODY;
    }
    EXPRESSION_BODY
}

// The kind of the body that `collect` hands over; 0 where the scan does not ask.
#[tactic(auto, using(base::proofs::Choice::picks), unfolding(crate::specs::Kind::body_kind))]
pub fn kind_of(scan: Scan) -> u8
    ensures { result ≡ body_kind scan }
{
    let job = scan.tokenizer.job;
    if is_asked(scan, job.length) {
        if job.construct == tokenizer::ESM {
            return ESM_BODY;
        }
        return expression_kind(job.kind, scan.tokenizer.regs.back);
    }
    NO_BODY
}
