ghost use Rattle.std.specs.Prelude.{◌≡◌, ◌<◌};
ghost use Rattle.partial.specs.Meaning.{the_partial};
ghost use Rattle.nodes.specs.Hash.{word_of, mixed, hash_of, bucket_of};

use partial::partial::PartialSchedule;

// The placement of task t as one number, 0 where it is not placed.
fn word(q: &PartialSchedule, t: usize) -> u64
    ensures { result ≡ word_of (the_partial q.now) t }
{
    q.placement(t)
        .map_or(0, |p| u64::from(p.start) * 256 + u64::from(p.machine) + 1)
}

// A hash with one number more.
fn mix(hash: u64, word: u64) -> u64
    ensures { result ≡ mixed hash word }
{
    let product = (hash ^ word).wrapping_mul(0x9E37_79B9_7F4A_7C15);
    product ^ (product >> 32)
}

// A hash of all placements.
fn hash(q: &PartialSchedule) -> u64
    ensures { result ≡ hash_of (the_partial q.now) }
{
    (0..32).fold(0, |h, t| mix(h, word(q, t)))
}

// The bucket of a partial schedule, one of so many.
pub(crate) fn bucket(q: &PartialSchedule, buckets: usize) -> usize
    requires { 0 < buckets }
    ensures is { result ≡ bucket_of (the_partial q.now) buckets }
    ensures within { result < buckets }
{
    hash(q) as usize % buckets
}
