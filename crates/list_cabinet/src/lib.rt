// One staging area for the lists of a cabinet's disks: these are handed in one after the other to a state by value, which says what is left
// of the area. How long a disk's list is says `list_size`.
#![tactic(auto)]

ghost use Rattle.std.specs.Prelude.{◌≡◌};
ghost use Rattle.list_cabinet.specs.Cabinet.{answer_with, taken_by};
ghost use Rattle.list_cabinet.specs.Entering.{cabinet_opened, cabinet_number, entered};

use list_size::{ListSize, list_size, refused};
use refusals::{AREA_TOO_SMALL, TOO_MANY_DISKS, first};

// A cabinet holds so many disks.
const MOST_DISKS: u64 = 16;

// Why it was refused, or 0; how many bytes are left of its area; and how many disks are still to come. Only `open` and `enter` make one.
#[derive(Clone, Copy)]
pub struct Cabinet {
    number: u32,
    left: u64,
    coming: u64,
}

// What a disk is answered, and the cabinet behind it.
#[derive(Clone, Copy)]
pub struct Entered {
    pub size: ListSize,
    pub cabinet: Cabinet,
}

// An area of so many bytes for so many disks: 41 where these are more than 16.
pub fn open(disks: u64, area: u64) -> Cabinet
    ensures { result ≡ cabinet_opened disks area }
{
    let number = first(MOST_DISKS < disks, TOO_MANY_DISKS, 0);
    Cabinet {
        number,
        left: area,
        coming: disks,
    }
}

// 0, or 41.
pub fn number_of(c: Cabinet) -> u32
    ensures { result ≡ c.number }
{
    c.number
}

// How many bytes of the area are left.
pub fn left_of(c: Cabinet) -> u64
    ensures { result ≡ c.left }
{
    c.left
}

// Why no disk is taken: the cabinet's number, and 41 where no more were announced.
fn number_in(c: Cabinet) -> u32
    ensures { result ≡ cabinet_number c }
{
    first(c.coming == 0, TOO_MANY_DISKS, c.number)
}

// What a disk is answered with so many bytes left.
fn answer_with(left: u64, own: ListSize) -> ListSize
    ensures { result ≡ answer_with left own }
{
    let short = refused(AREA_TOO_SMALL);
    if own.number != 0 {
        return own;
    }
    if left < own.bytes {
        return short;
    }
    own
}

// How many bytes a disk with this answer takes.
fn taken_by(answer: ListSize) -> u64
    ensures { result ≡ taken_by answer }
{
    if answer.number != 0 {
        return 0;
    }
    answer.bytes
}

// The next disk, by its input records: 41; the number that refuses its run; 40 where its list is longer than what is left; else it is
// admitted, and its list's bytes are taken.
pub fn enter(c: Cabinet, input: &[u8]) -> Entered
    ensures { result ≡ entered c input.now }
{
    let number = number_in(c);
    if number != 0 {
        return Entered {
            size: refused(number),
            cabinet: c,
        };
    }
    let own = list_size(input);
    let size = answer_with(c.left, own);
    let taken = taken_by(size);
    let cabinet = Cabinet {
        number: c.number,
        left: c.left.saturating_sub(taken),
        coming: c.coming.saturating_sub(1),
    };
    Entered { size, cabinet }
}
