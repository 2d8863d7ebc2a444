// What a line is, before anyone reads it.
ghost use Rattle.std.specs.Prelude.{◌≡◌};
ghost use Rattle.text.specs.Sort.{sort_of};

#[derive(Clone, Copy)]
pub enum Sort {
    // It is empty or begins with `#`, and is for people alone.
    Comment,
    // It ends in a carriage return, as the lines of a Windows file do.
    Windows,
    Plain,
}

#[tactic(auto, using(crate::proofs::Choices::choices), unfolding(crate::specs::Sort::sort_of))]
pub fn sort_of(line: &[u8]) -> Sort
    ensures { result ≡ sort_of line.now }
{
    match line {
        [] | [b'#', ..] => Sort::Comment,
        [.., b'\r'] => Sort::Windows,
        _ => Sort::Plain,
    }
}
