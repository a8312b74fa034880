// The input records: which disk, and with which options.
#![tactic(auto)]

pub mod options; // the options that the records give
pub mod defaults; // what stands for an absent UUID, time and seed

ghost use Rattle.std.specs.Prelude.{◌≡◌, suc, length};
ghost use Rattle.request.specs.Parse.{longest_input, parse_def, malformed_request};

use params::Params;

// The options and the device; `number` is 0, or 28 beside no options and zeros.
#[derive(Clone, Copy)]
pub struct Request {
    pub number: u32,
    pub params: Params,
    pub device: u64, // bytes
    pub logical: u32, // bytes of the logical sector
    pub physical: u32,
    pub profile: bool, // the run is under the scan station profile
}

fn malformed() -> Request
    ensures { result ≡ malformed_request }
{
    Request {
        number: refusals::MALFORMED,
        params: Params::new(),
        device: 0,
        logical: 0,
        physical: 0,
        profile: false,
    }
}

// A buffer for an input: one byte more than the longest, so that an input which fills it is malformed whatever follows.
pub fn input_buffer() -> [u8; 438]
    ensures { length result ≡ suc longest_input }
{
    [0; 438]
}

// Reads the records of any input.
pub fn parse(input: &[u8]) -> Request
    ensures { result ≡ parse_def input.now }
{
    if !request_input::well_formed(input) {
        return malformed();
    }
    Request {
        number: 0,
        params: options::params_of(input),
        device: endian::be64(input, 2).value,
        logical: endian::be32(input, 10).value,
        physical: endian::be32(input, 14).value,
        profile: options::profile_of(input),
    }
}
