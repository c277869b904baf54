//! The places of a queue's readers, by their numbers.

ghost use Rattle.std.specs.Prelude.{◌≡◌, ◌<◌, ◌^◌, length, slice_index_or, None, Some, IsSome, IfOk, OnErr};
ghost use Rattle.fanout_queue.specs.Places.{SetsPlace, AllBelowPlaced};

use addr4::Memory;

/// The place of a live reader.
pub(crate) fn place_of(places: &[Option<u64>], number: usize) -> u64
    requires { IsSome (slice_index_or places.now number None) }
    ensures at { slice_index_or places.now number None ≡ Some result }
    ensures few { length places.now < 2 ^ 63 }
{
    match places[number] {
        None => unreachable!(),
        Some(place) => place,
    }
}

/// Gives a live reader another place, or takes its place away.
pub(crate) fn set_place(places: &mut Vec<Option<u64>>, number: usize, place: Option<u64>)
    requires { IsSome (slice_index_or places.old.items number None) }
    ensures { SetsPlace places.old.items places.new.items number place }
{
    places[number] = place;
}

// The least number that no reader has.
fn first_free(places: &[Option<u64>]) -> usize
    ensures free { slice_index_or places.now result None ≡ None }
    ensures least { AllBelowPlaced places.now result }
{
    'places: for i in 0..places.len() {
        if places[i].is_none() {
            return i;
        }
    }
    places.len()
}

/// A new reader at a place, under the least number that none has.
pub(crate) fn join_place(places: &mut Vec<Option<u64>>, place: u64) -> Result<usize, Memory>
    ensures free { IfOk result (λ number. slice_index_or places.old.items number None ≡ None) }
    ensures least { IfOk result (AllBelowPlaced places.old.items) }
    ensures ok { IfOk result (λ number. SetsPlace places.old.items places.new.items number (Some place)) }
    ensures few { length places.old.items < 2 ^ 63 }
    ensures memory { OnErr result (places.new.items ≡ places.old.items) }
{
    let number = first_free(places.as_slice());
    if number < places.len() {
        places[number] = Some(place);
        return Ok(number);
    }
    let number = places.len();
    places.push(Some(place))?;
    Ok(number)
}
