// The sentence of a refusal, written into a lent buffer: 0 and where it ends, or 27 where it doesn't fit, and then nothing has changed.
#![tactic(auto)]

ghost use Rattle.std.specs.Prelude.{◌≡◌};
ghost use Rattle.table_lines.specs.Lines.{PutLine};
ghost use Rattle.text_pages.specs.Pages.{page as page_of, ascii_bytes};
ghost use Rattle.refusal_sentences.specs.Sentences.{texts, sentence};

use table_lines::Written;
use text_pages::put_line;

// The largest number that has a sentence.
const LAST: u32 = 43;

// The page, a line for each number: line 0 is said of a number that has none.
fn lines() -> [u8; 1976]
    ensures { result ≡ page_of texts }
{
    *b"\
        no such number\n\
        inobtcount without finobt\n\
        the block size is no power of two from 512 to 65,536\n\
        blocks of 512 bytes\n\
        blocks above 16,384 bytes\n\
        the sector size is no power of two from 512 to 32,768\n\
        a block is smaller than a sector\n\
        a sector is smaller than the device's logical sector\n\
        the inode size is no power of two from 512 to 2048, or above half a block\n\
        the size to use is larger than the device\n\
        fewer blocks than 16 MiB have\n\
        the group size is no multiple of the block size\n\
        the group size is 0\n\
        the group count is 0, and no group size is given\n\
        the last group is under 16 MiB, and the group count is given\n\
        a group has less than 16 MiB\n\
        a group has 1 TiB or more\n\
        a group has more blocks than the file system\n\
        more than 4,294,967,294 groups\n\
        imaxpct is above 100\n\
        the label has more than 12 bytes\n\
        fewer than 300 MiB\n\
        the log has less than 64 MiB\n\
        fewer than 2 groups\n\
        the group count is not the block count by the group size, rounded up\n\
        the log group has fewer free blocks than its free list takes\n\
        no inode can store the time\n\
        a buffer has not the length that is needed, or a file ends early\n\
        the input records, or a list of written records, are malformed\n\
        there is no such group, no such block or slot in it, or no such piece of a list\n\
        no accepted run leaves these bytes in this place\n\
        the geometry is no answer of the geometry step, or the plan is not the planner's\n\
        records are unsorted, overlap, are empty or end too late\n\
        no record holds the run that is asked for\n\
        a list has more than 64 records, or records don't fit the leaf block\n\
        a log stripe unit is above 16,384 bytes\n\
        the smallest device size is above the largest, or they lie more than 65,536 blocks apart\n\
        a rule of the scan station profile fails\n\
        no size that is formatted has so many free blocks\n\
        the number of sizes to try is 0 or above 65,536, or the last doesn't fit 64 bits\n\
        a disk's list doesn't fit what is left of the staging area\n\
        more than 16 disks for a cabinet\n\
        a run to hold is empty or not wholly free\n\
        no such run is held\n"
}

// What a number says; 0 and the numbers above 43 say that they are none.
pub fn put_sentence(number: u32, buf: &mut [u8], at: usize) -> Written
    ensures { PutLine at (ascii_bytes (sentence number)) buf.old result.number result.end buf.new }
{
    let page = lines();
    if LAST < number {
        return put_line(&page, 0, buf, at);
    }
    put_line(&page, number as usize, buf, at)
}
