// Theorems only: the body that an asking scan hands over is what the page's lines say, and what the events say; what is read after `collect` is
// that body; a verdict that says error is placed at its byte. specs/ states them; the statement of the second stands in mdx_collect's specs/.
#![tactic(auto)]
