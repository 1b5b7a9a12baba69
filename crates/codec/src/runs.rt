// Runs of records, one behind another: read into a list, written from a list, looked through for a wrong byte.
ghost use Rattle.std.specs.Prelude.{◌≡◌, ◌+◌, ◌*◌, ◌≤◌, length, drop};
ghost use Rattle.holdings.specs.Append.{over};
ghost use Rattle.codec_laws.specs.Lists.{image_all, records, wrong_from};

use crate::Record;

// Writes the records that bytes mean over a list from a place on.
pub fn fill<R: Record>(list: &mut [R], from: usize, count: usize, bytes: &[u8])
    requires room { from + count ≤ length list.old }
    requires whole { length bytes.now ≡ count * R.code.width }
    ensures { list.new ≡ over list.old from (records R.code count bytes.now) }
{
    let width = R::width();
    let mut rest = bytes;
    for place in &mut list[from..from + count] {
        let (record, behind) = rest.split_at(width);
        *place = R::read(record);
        rest = behind;
    }
}

// Writes the bytes of records over others from a place on, and answers the place behind them.
pub fn put<R: Record>(out: &mut [u8], from: usize, list: &[R]) -> usize
    requires room { from + length list.now * R.code.width ≤ length out.old }
    ensures end { result ≡ from + length list.now * R.code.width }
    ensures bytes { out.new ≡ over out.old from (image_all R.code list.now) }
{
    // `chunks_exact_mut` asks for a width above 0, which no record promises, and of what it lends only the length is known.
    let width = R::width();
    let mut end = from;
    for record in list {
        record.write(&mut out[end..end + width]);
        end += width;
    }
    end
}

// The place of the first wrong byte among records that begin at a place, or none.
pub fn first_wrong<R: Record>(file: &[u8], from: usize, count: usize) -> Option<usize>
    requires inside { from + count * R.code.width ≤ length file.now }
    ensures { result ≡ wrong_from R.code from count (drop from file.now) }
{
    // The place is the answer, and `chunks_exact` asks for a width above 0, which no record promises.
    let width = R::width();
    let mut at = from;
    for i in 0..count {
        if let Some(place) = R::wrong(&file[at..at + width]) {
            return Some(at + place);
        }
        at += width;
    }
    None
}
