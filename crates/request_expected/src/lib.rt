// What a word of mkrequest takes, by its key, written into a lent buffer: 0 and where it ends, or 27 where it doesn't fit, and then nothing
// has changed.
#![tactic(auto)]

ghost use Rattle.std.specs.Prelude.{◌≡◌};
ghost use Rattle.table_lines.specs.Lines.{PutLine};
ghost use Rattle.text_pages.specs.Pages.{page as page_of, ascii_bytes};
ghost use Rattle.request_expected.specs.Expected.{name_of, expected, name_lines, expected_lines};

use table_lines::Written;
use text_pages::put_line;

// How many keys there are; the line behind theirs is that of any other number.
const KEYS: usize = 18;

// A line for each name.
fn names() -> [u8; 126]
    ensures { result ≡ page_of name_lines }
{
    *b"\
        label\n\
        use\n\
        block\n\
        sector\n\
        inode\n\
        agcount\n\
        agsize\n\
        imaxpct\n\
        seed\n\
        features\n\
        time\n\
        nanoseconds\n\
        sizing\n\
        profile\n\
        size\n\
        logical\n\
        physical\n\
        uuid\n\
        \n"
}

// A line for what is expected behind each.
fn texts() -> [u8; 901]
    ensures { result ≡ page_of expected_lines }
{
    *b"\
        at most 12 bytes\n\
        bytes of the file system, such as 500G\n\
        bytes of a block, a power of two from 1K to 16K\n\
        bytes of a sector, a power of two from 512 to 32K\n\
        bytes of an inode, a power of two from 512 to 2K and at most half a block\n\
        a number of groups, such as 4\n\
        bytes of a group, such as 1G\n\
        a share in percent, from 0 to 100\n\
        a number below 2^64\n\
        all, none, or a list such as -reflink,-rmapbt of finobt rmapbt reflink inobtcount bigtime nrext64 sparse\n\
        now, or seconds since 1970\n\
        a number below 1000000000\n\
        plain or roomy\n\
        station\n\
        bytes of the device, such as 2T\n\
        bytes of the device's logical sector, such as 512 or 4K\n\
        bytes of the device's physical sector, such as 512 or 4K\n\
        random, none, or 36 characters such as 7a656368-7572-7169-2d73-746174696f6e\n\
        one of device= label= use= block= sector= inode= agcount= agsize= imaxpct= seed= features= time= nanoseconds= sizing= profile= size= logical= physical= uuid=\n"
}

// The name of a key.
pub fn put_name(key: usize, buf: &mut [u8], at: usize) -> Written
    ensures { PutLine at (ascii_bytes (name_of key)) buf.old result.number result.end buf.new }
{
    put_line(&names(), key.min(KEYS), buf, at)
}

// What is expected behind the name of a key.
pub fn put_expected(key: usize, buf: &mut [u8], at: usize) -> Written
    ensures { PutLine at (ascii_bytes (expected key)) buf.old result.number result.end buf.new }
{
    put_line(&texts(), key.min(KEYS), buf, at)
}
