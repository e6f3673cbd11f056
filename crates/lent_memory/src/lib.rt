// Whether memory lent to the packet calls is of its stated size.
#![tactic(auto)]

ghost use Rattle.std.specs.Prelude.{◌≡◌};
ghost use Rattle.packet_spec.specs.Memory.{cache_of, cache_of_size};
ghost use Rattle.lent_memory.specs.Code.{MemoryFits};

use packet_spec::sizes;

// Whether the cache is of its stated size.
pub fn cache_fits(cache: &[u8], cache_lengths: &[u16]) -> bool
    ensures { result ≡ cache_of_size (cache_of cache.now cache_lengths.now) }
{
    cache.len() == sizes::CACHE_BYTES && cache_lengths.len() == sizes::CACHE_PLACES
}

// Whether all lent memory is of its stated size. Slices and no structs: each is asked for its length alone, as take_packet is lent it.
pub fn memory_fits(
    cache: &[u8],
    cache_lengths: &[u16],
    plain_places: &[u8],
    plain_lengths: &[u16],
    pending_places: &[u8],
    pending_lengths: &[u16],
    gather: &[u8],
) -> bool
    ensures { MemoryFits result cache.now cache_lengths.now plain_places.now plain_lengths.now
        pending_places.now pending_lengths.now gather.now }
{
    cache_fits(cache, cache_lengths)
        && atom_list::list_fits(plain_places, plain_lengths)
        && atom_list::list_fits(pending_places, pending_lengths)
        && gather.len() == sizes::GATHER_BYTES
}
