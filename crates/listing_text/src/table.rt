// The header and the table of a bundle as text. No entry points and for this crate alone: `program_answer` has tested the layout.
ghost use Rattle.std.specs.Prelude.{◌+◌, ◌*◌, ◌≤◌, length};
ghost use Rattle.bundle_layout.specs.Fields.{held_in};
ghost use Rattle.listing_lines.specs.Puts.{Puts};
ghost use Rattle.listing_text.specs.Listing.{entry_lines, listing};

use bundle_layout::inner::Layout;
use listing_lines::{put_entry_line, put_header_line};

// A line takes at most 63 bytes: three numbers of 20 digits, two blanks and the line feed.
fn put_entries(bundle: Layout<'_>, out: &mut [u8], at: usize) -> usize
    requires { at + 63 * held_in bundle.bytes.now ≤ length out.old }
    ensures { Puts (entry_lines bundle.entry.bytes.now (held_in bundle.entry.bytes.now)) (63 * held_in bundle.entry.bytes.now) at
        out.old result out.new }
{
    let mut end = at;
    for t in 0..bundle.held() {
        let entry = bundle.entry(t);
        end = put_entry_line(entry.position, entry.offset, entry.count, out, end);
    }
    end
}

// From the front on.
pub fn put_listing(bundle: Layout<'_>, out: &mut [u8]) -> usize
    requires { 128 + 63 * held_in bundle.bytes.now ≤ length out.old }
    ensures { Puts (listing bundle.entry.bytes.now) (128 + 63 * held_in bundle.entry.bytes.now) 0
        out.old result out.new }
{
    let end = put_header_line(
        bundle.k(),
        bundle.n(),
        bundle.length(),
        bundle.held(),
        bundle.blocks(),
        out,
        0,
    );
    put_entries(bundle, out, end)
}
