// The parts of a superblock at their places: numbers of equal width that stand one after the other are a run.
ghost use Rattle.std.specs.Prelude.{◌≡◌, [], ◌∷◌, ◌+◌, ◌*◌, ◌≤◌, length, drop, T};
ghost use Rattle.endian.specs.Bytes.{patch, be_bytes};
ghost use Rattle.endian.specs.Fields.{write_fields, table, byte_run};
ghost use Rattle.sb.specs.Superblock.{log_sector};
ghost use Rattle.sb.specs.Numbers.{places, evenly, is_width, in_runs, sizes_runs, counts_runs, flags_runs};

// The number `x` in `width` bytes at `off`.
fn put_number(sector: &mut [u8], off: usize, width: usize, x: u64)
    requires { (off + width ≤ length sector.old) × T (is_width width) }
    ensures { sector.new ≡ patch off (be_bytes width x) sector.old }
{
    endian::put_bytes(sector, off, &x.to_be_bytes()[8 - width..]);
}

// `n` numbers from the one with the index `from` on, each in `width` bytes, the first at `off`.
fn put_run(sector: &mut [u8], off: usize, width: usize, v: &[u64], from: usize, n: usize)
    requires { (off + width * n ≤ length sector.old) × T (is_width width) × (from + n ≤ length v.now) }
    ensures { sector.new ≡ write_fields (table (evenly off width n) (drop from v.now)) sector.old }
{
    for (i, x) in v[from..from + n].iter().enumerate() {
        put_number(sector, off + width * i, width, *x);
    }
}

// The runs before sb_versionnum.
fn put_sizes(sector: &mut [u8], v: &[u64])
    requires { (264 ≤ length sector.old) × (length v.now ≡ 46) }
    ensures { sector.new ≡ in_runs sizes_runs 0 v.now sector.old }
{
    put_run(sector, 0, 4, v, 0, 2); // sb_magicnum, sb_blocksize
    put_run(sector, 8, 8, v, 2, 3); // sb_dblocks, sb_rblocks, sb_rextents
    put_run(sector, 48, 8, v, 5, 4); // sb_logstart, sb_rootino, sb_rbmino, sb_rsumino
    put_run(sector, 80, 4, v, 9, 5); // sb_rextsize, sb_agblocks, sb_agcount, sb_rbmblocks, sb_logblocks
}

// The runs from sb_versionnum to sb_width.
fn put_counts(sector: &mut [u8], v: &[u64])
    requires { (264 ≤ length sector.old) × (length v.now ≡ 46) }
    ensures { sector.new ≡ in_runs counts_runs 14 v.now sector.old }
{
    put_run(sector, 100, 2, v, 14, 4); // sb_versionnum, sb_sectsize, sb_inodesize, sb_inopblock
    put_run(sector, 120, 1, v, 18, 8); // sb_blocklog to sb_imax_pct
    put_run(sector, 128, 8, v, 26, 6); // sb_icount to sb_gquotino
    put_run(sector, 180, 4, v, 32, 3); // sb_inoalignmt, sb_unit, sb_width
}

// The runs from sb_dirblklog on.
fn put_flags(sector: &mut [u8], v: &[u64])
    requires { (264 ≤ length sector.old) × (length v.now ≡ 46) }
    ensures { sector.new ≡ in_runs flags_runs 35 v.now sector.old }
{
    put_run(sector, 192, 1, v, 35, 1); // sb_dirblklog
    put_run(sector, 196, 4, v, 36, 7); // sb_logsunit to sb_features_log_incompat
    put_run(sector, 228, 4, v, 43, 1); // sb_spino_align
    put_run(sector, 232, 8, v, 44, 2); // sb_pquotino, sb_lsn
}

// The numbers at their places.
pub(crate) fn put_numbers(sector: &mut [u8], v: &[u64; 46])
    requires { 264 ≤ length sector.old }
    ensures { sector.new ≡ write_fields (table places v.now) sector.old }
{
    put_sizes(sector, v);
    put_counts(sector, v);
    put_flags(sector, v);
}

// UUID and label.
pub(crate) fn put_names(sector: &mut [u8], uuid: &[u8; 16], label: &[u8; 12])
    requires { 264 ≤ length sector.old }
    ensures { sector.new ≡ write_fields (byte_run 32 uuid.now ∷ byte_run 108 label.now ∷ [])
        sector.old }
{
    endian::put_bytes(sector, 32, uuid); // sb_uuid
    endian::put_bytes(sector, 108, label); // sb_fname
}

// The log's sector, where it is named.
pub(crate) fn put_log_sector(sector: &mut [u8], large: bool, log: u8, size: u16)
    requires { 264 ≤ length sector.old }
    ensures { sector.new ≡ write_fields (log_sector large log size) sector.old }
{
    if large {
        endian::put8(sector, 193, log); // sb_logsectlog
        endian::put16(sector, 194, size); // sb_logsectsize
    }
}
