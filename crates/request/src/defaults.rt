// What stands for an absent UUID, time and seed: zeros.
ghost use Rattle.std.specs.Prelude.{◌≡◌};
ghost use Rattle.request.specs.Defaults.{uuid_of, time_of, seed_of};

use params::{Params, Timestamp};

pub fn uuid_or_zeros(params: Params) -> [u8; 16]
    ensures { result ≡ uuid_of params }
{
    params.uuid.unwrap_or([0; 16])
}

pub fn time_or_zero(params: Params) -> Timestamp
    ensures { result ≡ time_of params }
{
    params.time.unwrap_or(Timestamp { secs: 0, nsecs: 0 })
}

pub fn seed_or_zero(params: Params) -> u64
    ensures { result ≡ seed_of params }
{
    params.gen_seed.unwrap_or(0)
}
