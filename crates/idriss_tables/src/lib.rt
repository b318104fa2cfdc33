// The coefficients of Tables 2 and 3 as constant tables, a row for each period, with the printed digits, and which
// table a magnitude takes. The tables are static, since the compiler copies a const array to the stack at each look-up.
#![tactic(auto)]

ghost use Rattle.std.specs.Prelude.{◌≡◌, ◌<◌};
ghost use Rattle.scenario_theory.specs.Rows.{row_count};
ghost use Rattle.idriss_theory.specs.Tables.{takes_table3};
ghost use Rattle.idriss_theory.specs.Rows.{row_at, parts, RowLimits};

use idriss_theory::Row;

// Table 2, M up to and including 6.75: α1, −α1, α2, −α2, α3, −α3, β1, −β2, −ξ, −γ, φ.
static TABLE_2: [Row; 22] = [
    Row(70887, 0, 2058, 0, 589, 0, 29935, 2287, 854, 27, 8),
    Row(71157, 0, 2058, 0, 589, 0, 29935, 2287, 854, 27, 8),
    Row(72087, 0, 2058, 0, 589, 0, 29935, 2287, 854, 27, 8),
    Row(73287, 0, 2058, 0, 589, 0, 29935, 2287, 854, 27, 8),
    Row(62638, 0, 625, 0, 417, 0, 28664, 2418, 631, 61, 8),
    Row(59051, 0, 1128, 0, 527, 0, 29406, 2513, 591, 56, 8),
    Row(75791, 0, 848, 0, 442, 0, 30190, 2516, 757, 42, 8),
    Row(80190, 0, 1713, 0, 329, 0, 27871, 2236, 911, 46, 8),
    Row(92812, 0, 1041, 0, 188, 0, 28611, 2229, 998, 30, 8),
    Row(95804, 0, 875, 0, 95, 0, 28289, 2200, 1042, 28, 8),
    Row(98912, 0, 3, 0, 0, 39, 28423, 2284, 1030, 29, 8),
    Row(95342, 0, 27, 0, 0, 133, 28300, 2318, 1019, 28, 8),
    Row(92142, 0, 399, 0, 0, 224, 28560, 2337, 1023, 21, 8),
    Row(83517, 0, 689, 0, 0, 267, 27544, 2392, 1056, 29, 8),
    Row(70453, 0, 1600, 0, 0, 198, 27339, 2398, 1009, 32, 6),
    Row(51307, 0, 2429, 0, 0, 367, 26800, 2417, 898, 33, 4),
    Row(33610, 0, 3966, 0, 0, 291, 26837, 2450, 851, 32, 2),
    Row(1784, 0, 7560, 0, 0, 214, 26907, 2389, 761, 31, 2),
    Row(0, 24301, 9283, 0, 0, 240, 25782, 2514, 675, 51, 0),
    Row(0, 43570, 11209, 0, 0, 202, 25468, 2541, 629, 59, 0),
    Row(0, 78275, 14016, 0, 0, 219, 24478, 2593, 531, 57, 0),
    Row(0, 92857, 15574, 0, 0, 35, 23922, 2586, 586, 61, 0),
];

// Table 3, M above: the same columns.
static TABLE_3: [Row; 22] = [
    Row(90138, 0, 0, 794, 589, 0, 29935, 2287, 854, 27, 8),
    Row(90408, 0, 0, 794, 589, 0, 29935, 2287, 854, 27, 8),
    Row(91338, 0, 0, 794, 589, 0, 29935, 2287, 854, 27, 8),
    Row(92538, 0, 0, 794, 589, 0, 29935, 2287, 854, 27, 8),
    Row(79837, 0, 0, 1923, 417, 0, 27995, 2319, 631, 61, 8),
    Row(77560, 0, 0, 1614, 527, 0, 28143, 2326, 591, 56, 8),
    Row(94252, 0, 0, 1887, 442, 0, 28131, 2211, 757, 42, 8),
    Row(96242, 0, 0, 665, 329, 0, 24091, 1676, 911, 46, 8),
    Row(111300, 0, 0, 1698, 188, 0, 24938, 1685, 998, 30, 8),
    Row(113629, 0, 0, 1766, 95, 0, 23773, 1531, 1042, 28, 8),
    Row(117818, 0, 0, 2798, 0, 39, 23772, 1595, 1030, 29, 8),
    Row(116097, 0, 0, 3048, 0, 133, 23413, 1594, 1019, 28, 8),
    Row(114484, 0, 0, 2911, 0, 224, 23477, 1584, 1023, 21, 8),
    Row(109065, 0, 0, 3097, 0, 267, 22042, 1577, 1056, 29, 8),
    Row(98565, 0, 0, 2565, 0, 198, 21493, 1532, 1009, 32, 6),
    Row(83363, 0, 0, 2320, 0, 367, 20408, 1470, 898, 33, 4),
    Row(68656, 0, 0, 1226, 0, 291, 20013, 1439, 851, 32, 2),
    Row(41178, 0, 1724, 0, 0, 214, 19408, 1278, 761, 31, 2),
    Row(18102, 0, 3001, 0, 0, 240, 17763, 1326, 675, 51, 0),
    Row(977, 0, 4609, 0, 0, 202, 17030, 1291, 629, 59, 0),
    Row(0, 30563, 6948, 0, 0, 219, 15212, 1220, 531, 57, 0),
    Row(0, 44387, 8393, 0, 0, 35, 14195, 1145, 586, 61, 0),
];

// Row k of Table 3 where `table_3`, else of Table 2. `table_3` stays a bool: row_at and takes_table3 of the definitions
// have one, and an enum would be turned into it in each clause. k stays a usize: any below row_count is answered.
pub fn row_at(table_3: bool, k: usize) -> Row
    requires { k < row_count }
    ensures { (result ≡ parts (row_at table_3 k)) × RowLimits result }
{
    if table_3 {
        return TABLE_3[k];
    }
    TABLE_2[k]
}

// Whether the magnitude takes Table 3, and not Table 2.
#[tactic(auto, unfolding(idriss_theory::specs::Tables::takes_table3))]
pub fn takes_table_3(magnitude: u16) -> bool
    ensures { result ≡ takes_table3 magnitude }
{
    675 < magnitude
}
