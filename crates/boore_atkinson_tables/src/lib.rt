// The coefficients of Tables 3, 6, 7 and 8 as constant tables, a row for PGA and one for each period, with the printed
// digits. The tables are static, since the compiler copies a const array to the stack at each look-up.
#![tactic(auto)]

ghost use Rattle.std.specs.Prelude.{◌≡◌, ◌<◌};
ghost use Rattle.scenario_theory.specs.Rows.{row_count};
ghost use Rattle.boore_atkinson_theory.specs.Rows.{row_at, total_at};
ghost use Rattle.boore_atkinson_theory.specs.Rows.{site_parts, distance_parts, magnitude_parts, total_parts};
ghost use Rattle.boore_atkinson_theory.specs.Rows.{SiteLimits};
ghost use Rattle.boore_atkinson_theory.specs.Rows.{DistanceLimits, MagnitudeLimits};

use boore_atkinson_theory::{DistanceRow, MagnitudeRow, SiteRow, TotalRow};

// Table 3: −blin, −b1, −b2.
static TABLE_3: [SiteRow; 22] = [
    SiteRow(360, 640, 14),
    SiteRow(360, 640, 14),
    SiteRow(340, 630, 12),
    SiteRow(330, 620, 11),
    SiteRow(290, 640, 11),
    SiteRow(230, 640, 11),
    SiteRow(250, 600, 13),
    SiteRow(280, 530, 18),
    SiteRow(310, 520, 19),
    SiteRow(390, 520, 16),
    SiteRow(440, 520, 14),
    SiteRow(500, 510, 10),
    SiteRow(600, 500, 6),
    SiteRow(690, 470, 0),
    SiteRow(700, 440, 0),
    SiteRow(720, 400, 0),
    SiteRow(730, 380, 0),
    SiteRow(740, 340, 0),
    SiteRow(750, 310, 0),
    SiteRow(750, 291, 0),
    SiteRow(692, 247, 0),
    SiteRow(650, 215, 0),
];

// k stays a usize in the look-ups: docs/CONTRACTS.md names them for any k below row_count; a row type is narrower.
// Each indexes a table of its own type: one look-up, generic in the type, would be no plainer than TABLE_3[k].

// Row k of Table 3.
pub fn site_at(k: usize) -> SiteRow
    requires { k < row_count }
    ensures { (result ≡ site_parts (row_at k).site) × SiteLimits result }
{
    TABLE_3[k]
}

// Table 6: −c1, c2, −c2, −c3, h.
static TABLE_6: [DistanceRow; 22] = [
    DistanceRow(66050, 11970, 0, 1151, 135),
    DistanceRow(66220, 12000, 0, 1151, 135),
    DistanceRow(66600, 12280, 0, 1151, 135),
    DistanceRow(69010, 12830, 0, 1151, 135),
    DistanceRow(71700, 13170, 0, 1151, 135),
    DistanceRow(72050, 12370, 0, 1151, 155),
    DistanceRow(70810, 11170, 0, 1151, 168),
    DistanceRow(69610, 9884, 0, 1113, 186),
    DistanceRow(58300, 4273, 0, 952, 198),
    DistanceRow(57260, 2977, 0, 837, 207),
    DistanceRow(55430, 1955, 0, 750, 214),
    DistanceRow(64430, 4394, 0, 626, 224),
    DistanceRow(69140, 6080, 0, 540, 232),
    DistanceRow(74080, 7518, 0, 409, 246),
    DistanceRow(81830, 10270, 0, 334, 254),
    DistanceRow(83030, 9793, 0, 255, 266),
    DistanceRow(82850, 9432, 0, 217, 273),
    DistanceRow(78440, 7282, 0, 191, 283),
    DistanceRow(68540, 3758, 0, 191, 289),
    DistanceRow(50960, 0, 2391, 191, 293),
    DistanceRow(37240, 0, 6568, 191, 300),
    DistanceRow(9824, 0, 13800, 191, 304),
];

// Row k of Table 6.
pub fn distance_at(k: usize) -> DistanceRow
    requires { k < row_count }
    ensures { (result ≡ distance_parts (row_at k).distance) × DistanceLimits result }
{
    TABLE_6[k]
}

// Table 7: e1, −e1, e2, −e2, e3, −e3, e4, −e4, e5, −e6, e7, Mh. The layout would break its rows.
#[rattlefmt::skip]
static TABLE_7: [MagnitudeRow; 22] = [
    MagnitudeRow(0, 53804, 0, 50350, 0, 75472, 0, 50970, 28805, 10164, 0, 675),
    MagnitudeRow(0, 52883, 0, 49429, 0, 74551, 0, 49966, 28897, 10019, 0, 675),
    MagnitudeRow(0, 52192, 0, 48508, 0, 73906, 0, 48895, 25144, 11006, 0, 675),
    MagnitudeRow(0, 45285, 0, 41831, 0, 66722, 0, 42229, 17976, 12858, 0, 675),
    MagnitudeRow(0, 28476, 0, 25022, 0, 48462, 0, 26092, 6369, 15752, 0, 675),
    MagnitudeRow(767, 0, 4912, 0, 0, 20578, 2706, 0, 1170, 17051, 0, 675),
    MagnitudeRow(20109, 0, 23102, 0, 3058, 0, 22193, 0, 4697, 15948, 0, 675),
    MagnitudeRow(46128, 0, 48661, 0, 30185, 0, 49328, 0, 17990, 14539, 0, 675),
    MagnitudeRow(57180, 0, 59253, 0, 40860, 0, 61472, 0, 52729, 12964, 102, 675),
    MagnitudeRow(51884, 0, 53496, 0, 33880, 0, 57747, 0, 60880, 13843, 8607, 675),
    MagnitudeRow(43825, 0, 44516, 0, 25356, 0, 51990, 0, 64472, 15694, 10601, 675),
    MagnitudeRow(39220, 0, 40602, 0, 21398, 0, 46080, 0, 78610, 7843, 2262, 675),
    MagnitudeRow(18957, 0, 19878, 0, 967, 0, 26337, 0, 76837, 9054, 0, 675),
    MagnitudeRow(0, 21338, 0, 19496, 0, 49176, 0, 10813, 75179, 14053, 10302, 675),
    MagnitudeRow(0, 46896, 0, 43443, 0, 78465, 0, 39330, 67880, 18257, 5393, 675),
    MagnitudeRow(0, 86271, 0, 79593, 0, 120902, 0, 88085, 70689, 25950, 19082, 675),
    MagnitudeRow(0, 122652, 0, 115514, 0, 157697, 0, 127669, 77989, 29657, 29888, 675),
    MagnitudeRow(0, 182979, 0, 174690, 0, 222584, 0, 191814, 77966, 45384, 67466, 675),
    MagnitudeRow(0, 224656, 0, 215906, 0, 258228, 0, 238168, 124961, 35874, 79508, 675),
    MagnitudeRow(0, 128408, 0, 121270, 0, 150904, 0, 141093, 14271, 39006, 0, 850),
    MagnitudeRow(0, 143145, 0, 131632, 0, 181022, 0, 159217, 52407, 37578, 0, 850),
    MagnitudeRow(0, 215446, 0, 216137, 0, 253323, 0, 214635, 40387, 48492, 0, 850),
];

// Row k of Table 7.
pub fn magnitude_at(k: usize) -> MagnitudeRow
    requires { k < row_count }
    ensures { (result ≡ magnitude_parts (row_at k).magnitude) × MagnitudeLimits result }
{
    TABLE_7[k]
}

// Table 8: σTU, σTM.
static TABLE_8: [TotalRow; 22] = [
    TotalRow(566, 564),
    TotalRow(569, 566),
    TotalRow(569, 566),
    TotalRow(578, 576),
    TotalRow(589, 589),
    TotalRow(606, 606),
    TotalRow(608, 608),
    TotalRow(592, 594),
    TotalRow(596, 596),
    TotalRow(592, 592),
    TotalRow(608, 608),
    TotalRow(603, 603),
    TotalRow(615, 615),
    TotalRow(649, 645),
    TotalRow(654, 647),
    TotalRow(684, 679),
    TotalRow(702, 700),
    TotalRow(700, 695),
    TotalRow(702, 698),
    TotalRow(730, 744),
    TotalRow(781, 787),
    TotalRow(735, 801),
];

// Row k of Table 8.
pub fn total_at(k: usize) -> TotalRow
    requires { k < row_count }
    ensures { result ≡ total_parts (total_at k) }
{
    TABLE_8[k]
}
