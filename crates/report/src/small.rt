// Letters in lower case.
ghost use Rattle.std.specs.Prelude.{◌≡◌};
ghost use Rattle.report.specs.Small.{in_small};

// Every capital of the text becomes the small letter; every other byte stays.
pub fn in_small(text: &mut [u8])
    ensures { text.new ≡ in_small text.old }
{
    text.make_ascii_lowercase();
}
