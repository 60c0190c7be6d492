//! The stack that the launcher's event loop needs, taken from the system while it has memory. A stack that has to grow later, and can't,
//! would end the launcher.

// The bytes of a page.
const PAGE: usize = 4096;

/// How many pages are taken: a quarter more than the event loop needs, with all that it calls. A setting needs most, after the disk of
/// the store failed.
pub(crate) const PAGES: usize = 112;

/// Takes this many pages below the caller's, and one more. It returns 0. Each page is written before those below it are taken and read
/// after that. The return value depends on it, so that no compiler leaves a page out.
pub(crate) fn take_stack(pages: usize) -> u8 {
    let mut page = [0u8; PAGE];
    page[pages % PAGE] = 1;
    let below = if pages == 0 { 0 } else { take_stack(pages - 1) };
    page[(pages % PAGE + 1 + below as usize) % PAGE]
}
