// What the walk does with a part of the tape: the steps, and the lines that they print.

#![tactic(auto)]

ghost use Rattle.std.specs.Prelude.{◌≡◌, ◌+◌, ◌*◌, ◌≤◌, length};
ghost use Rattle.rules.specs.Tape.{entries};
ghost use Rattle.rules.specs.Listing.{step_lines};
ghost use Rattle.rules.specs.Verdicts.{steps};
ghost use Rattle.book.specs.Forms.{form_of};
ghost use Rattle.listing.specs.Written.{written};
ghost use Rattle.listing.specs.Parts.{record_lines, part_ran, part_lines};
ghost use Rattle.desk.specs.Known.{Known};

pub mod accounts;
pub mod text;

use book::forms::Form;
use rules::Hall;

// A line for each record and its verdict. The first has a place in the whole tape, and the bound on it keeps the others' in range.
fn put_steps(out: &mut [u8], place: u64, tape: &[u8], verdicts: &[u8]) -> usize
    requires { (length tape.now ≡ 8 * length verdicts.now) × (63 * length verdicts.now ≤ length out.old) × (place + length verdicts.now ≤ 9223372036854775807) }
    ensures { (result ≡ length (step_lines place (entries (length verdicts.now) tape.now) verdicts.now)) × (out.new ≡ written 0 (step_lines place (entries (length verdicts.now) tape.now) verdicts.now) out.old) × (result ≤ 63 * length verdicts.now) }
{
    let mut end = 0;
    for (i, &verdict) in verdicts.iter().enumerate() {
        let e = tape::entry_at(tape, 8 * i);
        end = text::put_step(out, end, place + i as u64, e.kind, verdict);
    }
    end
}

// Whole records: the steps, the numbers of each into the lent buffers, and then the lines, which have the verdicts alone.
fn walk_records(
    form: Form,
    h: Hall,
    tokens: &[u32],
    book: &mut [u32],
    place: u64,
    tape: &[u8],
    verdicts: &mut [u8],
    seconds: &mut [u8],
    out: &mut [u8],
) -> usize
    requires { Known (form_of form) h tokens.now book.old × (length tape.now ≡ 8 * length verdicts.old) × (length seconds.old ≡ length verdicts.old) × (63 * length verdicts.old ≤ length out.old) × (place + length verdicts.old ≤ 9223372036854775807) }
    ensures { (result ≡ length (record_lines (form_of form) h tokens.now book.old place (entries (length verdicts.old) tape.now))) × (book.new ≡ (steps (form_of form) h tokens.now book.old (entries (length verdicts.old) tape.now)).book) × (out.new ≡ written 0 (record_lines (form_of form) h tokens.now book.old place (entries (length verdicts.old) tape.now)) out.old) × (result ≤ 63 * length verdicts.old) }
{
    desk::run_known(form, h, tokens, book, tape, verdicts, seconds);
    put_steps(out, place, tape, verdicts)
}

// At most 1,024 records, and what is left over behind the last whole one: only the tape's last part may have that.
pub fn walk_part(
    form: Form,
    h: Hall,
    tokens: &[u32],
    book: &mut [u32],
    place: u64,
    part: &[u8],
    out: &mut [u8],
) -> usize
    requires { Known (form_of form) h tokens.now book.old × (length part.now ≤ 8192) × (65536 ≤ length out.old) × (place ≤ 9223372036854774783) }
    ensures { (result ≡ length (part_lines (form_of form) h tokens.now book.old place part.now)) × (book.new ≡ (part_ran (form_of form) h tokens.now book.old part.now).book) × (out.new ≡ written 0 (part_lines (form_of form) h tokens.now book.old place part.now) out.old) × (result ≤ 65536) }
{
    let n = part.len() / 8;
    let whole = 8 * n;
    let mut verdicts = [0u8; 1024];
    let mut seconds = [0u8; 1024];
    let end = walk_records(
        form,
        h,
        tokens,
        book,
        place,
        &part[..whole],
        &mut verdicts[..n],
        &mut seconds[..n],
        out,
    );
    text::put_cut(out, end, part.len())
}
