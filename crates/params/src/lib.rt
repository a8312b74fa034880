// The options of a format run, as the caller asks for them, and the features.
#![tactic(auto)]

ghost use Rattle.std.specs.Prelude.{◌≡◌};
ghost use Rattle.params.specs.Params.{all_features, no_options, with_size, with_block_size, with_sector_size, with_inode_size, with_agcount, with_agsize, with_imaxpct, with_label, with_uuid, with_time, with_gen_seed, with_features, with_roomy};

// A point in time as XFS stores it: seconds since the Unix epoch, and nanoseconds within the second.
#[derive(Clone, Copy)]
pub struct Timestamp {
    pub secs: i64,
    pub nsecs: u32,
}

// A label's length and its first 12 bytes; a longer label keeps its length. An absent label has the length 0.
#[derive(Clone, Copy)]
pub struct Label {
    pub length: usize,
    pub bytes: [u8; 12],
}

// The v5 features that mkfs.xfs turns on or off.
#[derive(Clone, Copy, PartialEq, Eq)]
pub struct Features {
    pub finobt: bool,
    pub rmapbt: bool,
    pub reflink: bool,
    pub inobtcount: bool,
    pub bigtime: bool,
    pub nrext64: bool,
    pub sparse: bool,
}

// What the caller asks for. All that is absent is chosen the way mkfs.xfs chooses it.
#[derive(Clone, Copy)]
pub struct Params {
    pub size: Option<u64>, // bytes of the file system
    pub block_size: Option<u32>,
    pub sector_size: Option<u32>,
    pub inode_size: Option<u32>,
    pub agcount: Option<u64>,
    pub agsize: Option<u64>, // bytes of an allocation group
    pub imaxpct: Option<u8>,
    pub label: Label,
    pub uuid: Option<[u8; 16]>,
    pub time: Option<Timestamp>,
    pub gen_seed: Option<u64>,
    pub features: Features,
    pub roomy: bool, // roomy log sizing, else plain
}

impl Features {
    // What mkfs.xfs turns on with no option: all seven.
    pub fn default() -> Features
        ensures { result ≡ all_features }
    {
        Features {
            finobt: true,
            rmapbt: true,
            reflink: true,
            inobtcount: true,
            bigtime: true,
            nrext64: true,
            sparse: true,
        }
    }
}

impl Params {
    // No option given, all features on.
    pub fn new() -> Params
        ensures { result ≡ no_options }
    {
        let features = Features::default();
        let label = Label {
            length: 0,
            bytes: [0u8; 12],
        };
        Params {
            size: None,
            block_size: None,
            sector_size: None,
            inode_size: None,
            agcount: None,
            agsize: None,
            imaxpct: None,
            label,
            uuid: None,
            time: None,
            gen_seed: None,
            features,
            roomy: false,
        }
    }

    // The file system's size in bytes.
    pub fn size(self, bytes: u64) -> Params
        ensures { result ≡ with_size self bytes }
    {
        Params {
            size: Some(bytes),
            ..self
        }
    }

    pub fn block_size(self, bytes: u32) -> Params
        ensures { result ≡ with_block_size self bytes }
    {
        Params {
            block_size: Some(bytes),
            ..self
        }
    }

    pub fn sector_size(self, bytes: u32) -> Params
        ensures { result ≡ with_sector_size self bytes }
    {
        Params {
            sector_size: Some(bytes),
            ..self
        }
    }

    pub fn inode_size(self, bytes: u32) -> Params
        ensures { result ≡ with_inode_size self bytes }
    {
        Params {
            inode_size: Some(bytes),
            ..self
        }
    }

    pub fn agcount(self, n: u64) -> Params
        ensures { result ≡ with_agcount self n }
    {
        Params {
            agcount: Some(n),
            ..self
        }
    }

    // A group's size in bytes.
    pub fn agsize(self, bytes: u64) -> Params
        ensures { result ≡ with_agsize self bytes }
    {
        Params {
            agsize: Some(bytes),
            ..self
        }
    }

    pub fn imaxpct(self, percent: u8) -> Params
        ensures { result ≡ with_imaxpct self percent }
    {
        Params {
            imaxpct: Some(percent),
            ..self
        }
    }

    pub fn label(self, label: Label) -> Params
        ensures { result ≡ with_label self label }
    {
        Params { label, ..self }
    }

    pub fn uuid(self, bytes: [u8; 16]) -> Params
        ensures { result ≡ with_uuid self bytes }
    {
        Params {
            uuid: Some(bytes),
            ..self
        }
    }

    pub fn time(self, secs: i64, nsecs: u32) -> Params
        ensures { result ≡ with_time self secs nsecs }
    {
        let t = Timestamp { secs, nsecs };
        Params {
            time: Some(t),
            ..self
        }
    }

    pub fn gen_seed(self, seed: u64) -> Params
        ensures { result ≡ with_gen_seed self seed }
    {
        Params {
            gen_seed: Some(seed),
            ..self
        }
    }

    pub fn features(self, features: Features) -> Params
        ensures { result ≡ with_features self features }
    {
        Params { features, ..self }
    }

    pub fn roomy(self, roomy: bool) -> Params
        ensures { result ≡ with_roomy self roomy }
    {
        Params { roomy, ..self }
    }
}
