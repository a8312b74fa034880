// The lengths that a lent sector, block or inode may have: powers of two.
ghost use Rattle.std.specs.Prelude.{◌≡◌, ◌||◌};
ghost use Rattle.structs.specs.Sizes.{is_sector, is_block, is_inode};

fn either(a: bool, b: bool) -> bool
    ensures { result ≡ (a || b) }
{
    if a {
        return true;
    }
    b
}

fn any3(a: bool, b: bool, c: bool) -> bool
    ensures { result ≡ (a || (b || c)) }
{
    either(a, either(b, c))
}

// 512 to 2048 bytes.
pub fn is_inode(n: usize) -> bool
    ensures { result ≡ is_inode n }
{
    any3(n == 512, n == 1024, n == 2048)
}

// 1024 to 16384 bytes.
pub fn is_block(n: usize) -> bool
    ensures { result ≡ is_block n }
{
    let large = any3(n == 4096, n == 8192, n == 16384);
    either(n == 1024, either(n == 2048, large))
}

// 512 to 32768 bytes.
pub fn is_sector(n: usize) -> bool
    ensures { result ≡ is_sector n }
{
    let large = either(n == 4096, any3(n == 8192, n == 16384, n == 32768));
    either(n == 512, either(n == 1024, either(n == 2048, large)))
}
