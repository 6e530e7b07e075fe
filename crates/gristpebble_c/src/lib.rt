// The C function: the library's call, exported. (In a crate of its own, with the library's clauses: a crate is a library or a static
// library, and C hands over each slice as a pointer and a length and gets one number of 64 bits.)
#![tactic(auto)]

ghost use Rattle.std.specs.Prelude.{◌≡◌};
ghost use Rattle.listing.specs.Result.{listed_result, listed_lent};

// The records of `input` up to close are taken, each put in its place, and the listing of the day is written to the front of
// `out`. The result is the count of bytes written, or, at a refusal, its number times 2^32; then `out` is as it was.
#[unsafe(no_mangle)]
pub extern "C" fn gristpebble_listing(input: &[u8], out: &mut [u8]) -> u64
    ensures { (result ≡ listed_result input.now out.old) × (out.new ≡ listed_lent input.now out.old) }
{
    gristpebble::gristpebble_listing(input, out)
}
