//! Reading a region while another program may write to it.
ghost use Rattle.std.specs.Prelude.{◌≡◌, ◌≢◌, ◌≤◌, ◌+◌, ◌++◌, ◌∷◌, [], ℕ, List, length, true, false, OnOk, OnErr};
ghost use Rattle.region_reader.specs.Steady.{IsSteady, AreUnsteady};
ghost use Rattle.region_reader.specs.declared.steady.Unsteady.TheVariants as unsteady;

use lease_disk::REGION;

/// How often a region is read at most.
const READINGS: usize = 100;

/// Why a region was not read.
#[derive(Clone, Copy)]
pub(crate) enum Unsteady {
    /// No two readings one after the other were equal.
    Busy,
    /// A reading failed.
    Unreadable,
}

/// What regions are read from. Contracts see each reading, as the region and the bytes that it had, and how
/// often one failed.
pub trait RegionReader {
    ghost readings: { Self → List (ℕ × List ℕ) };

    ghost failures: { Self → ℕ };

    /// Fills `out` with the bytes of a region, and returns whether it could. If not, `out` holds any bytes.
    fn read(&mut self, region: u16, out: &mut [u8; REGION]) -> bool
        ensures read { result ≡ true → readings self.new ≡ readings self.old ++ (region, out.new) ∷ [] }
        ensures quiet { result ≡ true → failures self.new ≡ failures self.old }
        ensures none { result ≡ false → readings self.new ≡ readings self.old }
        ensures failed { result ≡ false → failures self.new ≡ failures self.old + 1 };
}

/// Reads a region until two readings one after the other are equal, at most 100 times. At an error `out`
/// holds any bytes.
pub(crate) fn read_steadily<R: RegionReader>(
    reader: &mut R,
    region: u16,
    out: &mut [u8; REGION],
) -> Result<(), Unsteady>
    ensures steady { OnOk result (IsSteady region out.new (R.readings reader.old) (R.readings reader.new)) }
    ensures not_steady { OnErr result (AreUnsteady region (R.readings reader.old) (R.readings reader.new)) }
    ensures most { length (R.readings reader.new) + R.failures reader.new ≤ length (R.readings reader.old) + R.failures reader.old + 100 }
    ensures busy { result ≡ Err unsteady.Busy → length (R.readings reader.new) ≡ length (R.readings reader.old) + 100 }
    ensures quiet { result ≢ Err unsteady.Unreadable → R.failures reader.new ≡ R.failures reader.old }
    ensures cause { result ≡ Err unsteady.Unreadable → R.failures reader.new ≡ R.failures reader.old + 1 }
{
    if !reader.read(region, out) {
        return Err(Unsteady::Unreadable);
    }
    let mut again = [0; REGION];
    'readings: for _ in 1..READINGS {
        if !reader.read(region, &mut again) {
            return Err(Unsteady::Unreadable);
        }
        if again == *out {
            return Ok(());
        }
        *out = again;
    }
    Err(Unsteady::Busy)
}
