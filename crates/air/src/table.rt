// The standard densities in 10⁻⁵ kg/m³, one for each 1,000 ft from 0 to 60,000.
ghost use Rattle.std.specs.Prelude.{◌≡◌, ◌<◌, ◌≤◌};
ghost use Rattle.air.specs.Standard.{table, level, Falling, Within, Counted};

const DENSITIES: [u64; 61] = [
    122500, 118955, 115490, 112102, 108791, 105555, 102393, 99304, 96287, 93341, 90464, 87655,
    84914, 82238, 79628, 77082, 74598, 72176, 69815, 67513, 65269, 63084, 60954, 58880, 56861,
    54895, 52981, 51119, 49307, 47545, 45831, 44165, 42546, 40973, 39444, 37960, 36518, 34833,
    33199, 31641, 30156, 28741, 27392, 26107, 24881, 23714, 22601, 21540, 20530, 19566, 18648,
    17773, 16939, 16144, 15386, 14664, 13976, 13320, 12695, 12100, 11532,
];

// The table falls strictly and keeps within the bounds of a day, and no density between its levels is negative.
pub fn table_stands()
    ensures falling { Falling table }
    ensures within { Within 5000 150000 table }
    ensures counted { Counted }
{}

// The density at k thousand feet.
pub(crate) fn level_density(k: usize) -> u64
    requires { k < 61 }
    ensures value { result ≡ level k }
    ensures bound { result ≤ 150000 }
{
    DENSITIES[k]
}
