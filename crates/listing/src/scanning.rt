// The scan of a construct, run to its end. What begins with `{` is read as an expression, what begins with `<` as a tag, anything
// else as an ESM block whose verdicts are all fine.
use crate::arguments::Asked;
use base::Verdict;
use scan::beginning::{ASKS, single};
use scan::{Answer, Request};

// More steps than a run over the longest page takes, and more runs than it asks for verdicts.
const ALLOWANCE: usize = 480_016;

const RUNS: usize = 60_001;

// The scan runs until it has ended; whenever it asks, all is fine.
pub(crate) fn answer_of(asked: Asked, page: &[u8], words: &mut [u32]) -> Answer {
    let construct = construct_at(page, asked.start);
    let request = Request {
        at: 0,
        length: page.len(),
        start: asked.start,
        construct,
        kind: asked.kind,
        flags: if construct == tokenizer::ESM { ASKS } else { 0 },
    };
    let mut ran = single(page, request, ALLOWANCE, words);
    for _ in 0..RUNS {
        if !matches!(ran.answer, Answer::Asking { .. }) {
            break;
        }
        let told = ran.scan.give(Verdict::Fine);
        ran = told.scan.run(page, words, ALLOWANCE);
    }
    ran.answer
}

fn construct_at(page: &[u8], at: usize) -> u8 {
    match page.get(at) {
        Some(b'{') => tokenizer::EXPRESSION,
        Some(b'<') => tokenizer::TAG,
        _ => tokenizer::ESM,
    }
}
