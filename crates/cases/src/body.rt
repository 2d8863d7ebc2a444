// The body that a scan asks about.
use scan::Scan;

// The body of the scan that asks, as a field of bytes: it is put at a place of the buffer, and the place past it is answered. The
// scratch takes a copy of the body where one is needed.
pub(crate) fn put_body(
    scan: Scan,
    page: &[u8],
    scratch: &mut [u8],
    out: &mut [u8],
    at: usize,
) -> usize {
    let body = mdx_collect::collect(scan, page, scratch);
    report::hex(out, at, mdx_collect::part(page, scratch, body))
}
