// Written by tools/logarithm_tables.py. Two tables of factors that bring a number near 1, with the logarithm of
// each. They are static, since the compiler copies a const array to the stack at each look-up; the layout would break
// their rows. Two look-ups of a line, each into its own table: one for both would be no plainer.
#![tactic(auto)]

ghost use Rattle.std.specs.Prelude.{◌≡◌};
ghost use Rattle.logarithm_tables_theory.specs.Tables.{coarse_at, fine_at};

use logarithm_tables_theory::Factor;

// ln 2, in the same units: the last of the coarse logarithms.
pub const LN_2: u64 = 2_839_130_851_566;

// by (64 + i)/64 is 4096 or a little above; ln(4096/by). The last has by = 2048, and so ln 2.
#[rattlefmt::skip]
static COARSE: [Factor; 65] = [
    Factor { by: 4096, logarithm: 0 },
    Factor { by: 4033, logarithm: 63_489_523_081 },
    Factor { by: 3972, logarithm: 125_915_715_806 },
    Factor { by: 3913, logarithm: 187_214_006_308 },
    Factor { by: 3856, logarithm: 247_318_573_010 },
    Factor { by: 3800, logarithm: 307_240_226_835 },
    Factor { by: 3745, logarithm: 366_957_653_065 },
    Factor { by: 3693, logarithm: 424_229_895_645 },
    Factor { by: 3641, logarithm: 482_314_315_955 },
    Factor { by: 3592, logarithm: 537_811_915_968 },
    Factor { by: 3543, logarithm: 594_071_805_352 },
    Factor { by: 3496, logarithm: 648_771_297_049 },
    Factor { by: 3450, logarithm: 703_023_745_817 },
    Factor { by: 3405, logarithm: 756_801_323_562 },
    Factor { by: 3361, logarithm: 810_075_500_519 },
    Factor { by: 3319, logarithm: 861_582_766_076 },
    Factor { by: 3277, logarithm: 913_745_993_810 },
    Factor { by: 3237, logarithm: 964_050_586_799 },
    Factor { by: 3197, logarithm: 1_014_980_680_331 },
    Factor { by: 3159, logarithm: 1_063_957_978_795 },
    Factor { by: 3121, logarithm: 1_113_528_010_539 },
    Factor { by: 3085, logarithm: 1_161_049_007_633 },
    Factor { by: 3049, logarithm: 1_209_127_812_016 },
    Factor { by: 3014, logarithm: 1_256_418_457_732 },
    Factor { by: 2979, logarithm: 1_304_261_484_566 },
    Factor { by: 2946, logarithm: 1_349_888_285_475 },
    Factor { by: 2913, logarithm: 1_396_029_070_374 },
    Factor { by: 2881, logarithm: 1_441_273_575_973 },
    Factor { by: 2850, logarithm: 1_485_585_995_595 },
    Factor { by: 2819, logarithm: 1_530_383_055_276 },
    Factor { by: 2789, logarithm: 1_574_206_583_157 },
    Factor { by: 2760, logarithm: 1_617_019_731_998 },
    Factor { by: 2731, logarithm: 1_660_285_113_322 },
    Factor { by: 2703, logarithm: 1_702_496_749_330 },
    Factor { by: 2675, logarithm: 1_745_147_934_262 },
    Factor { by: 2648, logarithm: 1_786_700_798_613 },
    Factor { by: 2622, logarithm: 1_827_117_065_809 },
    Factor { by: 2596, logarithm: 1_867_936_108_111 },
    Factor { by: 2571, logarithm: 1_907_572_569_917 },
    Factor { by: 2546, logarithm: 1_947_596_339_613 },
    Factor { by: 2521, logarithm: 1_988_015_061_116 },
    Factor { by: 2497, logarithm: 2_027_195_909_892 },
    Factor { by: 2474, logarithm: 2_065_099_217_984 },
    Factor { by: 2450, logarithm: 2_105_028_047_583 },
    Factor { by: 2428, logarithm: 2_141_974_587_551 },
    Factor { by: 2405, logarithm: 2_180_960_191_194 },
    Factor { by: 2384, logarithm: 2_216_882_743_430 },
    Factor { by: 2362, logarithm: 2_254_856_888_159 },
    Factor { by: 2341, logarithm: 2_291_436_336_034 },
    Factor { by: 2320, logarithm: 2_328_345_403_628 },
    Factor { by: 2300, logarithm: 2_363_808_828_623 },
    Factor { by: 2280, logarithm: 2_399_581_981_775 },
    Factor { by: 2260, logarithm: 2_435_670_320_953 },
    Factor { by: 2241, logarithm: 2_470_251_286_187 },
    Factor { by: 2222, logarithm: 2_505_126_692_938 },
    Factor { by: 2203, logarithm: 2_540_301_598_373 },
    Factor { by: 2185, logarithm: 2_573_906_162_434 },
    Factor { by: 2167, logarithm: 2_607_788_708_583 },
    Factor { by: 2149, logarithm: 2_641_953_874_228 },
    Factor { by: 2132, logarithm: 2_674_484_762_345 },
    Factor { by: 2115, logarithm: 2_707_276_084_171 },
    Factor { by: 2098, logarithm: 2_740_332_043_310 },
    Factor { by: 2081, logarithm: 2_773_656_945_966 },
    Factor { by: 2065, logarithm: 2_805_271_188_776 },
    Factor { by: 2048, logarithm: 2_839_130_851_566 },
];

// The entry at i, and past the end the last.
pub fn coarse(i: u64) -> Factor
    ensures { result ≡ coarse_at i }
{
    let place = i.min(64) as usize;
    COARSE[place]
}

// by (4096 + i)/4096 is 16384 or a little above; ln(16384/by).
#[rattlefmt::skip]
static FINE: [Factor; 64] = [
    Factor { by: 16_384, logarithm: 0 },
    Factor { by: 16_381, logarithm: 750_068_672 },
    Factor { by: 16_377, logarithm: 1_750_373_946 },
    Factor { by: 16_373, logarithm: 2_750_923_570 },
    Factor { by: 16_369, logarithm: 3_751_717_662 },
    Factor { by: 16_365, logarithm: 4_752_756_342 },
    Factor { by: 16_361, logarithm: 5_754_039_730 },
    Factor { by: 16_357, logarithm: 6_755_567_946 },
    Factor { by: 16_353, logarithm: 7_757_341_109 },
    Factor { by: 16_349, logarithm: 8_759_359_339 },
    Factor { by: 16_345, logarithm: 9_761_622_757 },
    Factor { by: 16_341, logarithm: 10_764_131_481 },
    Factor { by: 16_337, logarithm: 11_766_885_632 },
    Factor { by: 16_333, logarithm: 12_769_885_331 },
    Factor { by: 16_329, logarithm: 13_773_130_698 },
    Factor { by: 16_325, logarithm: 14_776_621_853 },
    Factor { by: 16_321, logarithm: 15_780_358_916 },
    Factor { by: 16_317, logarithm: 16_784_342_008 },
    Factor { by: 16_313, logarithm: 17_788_571_250 },
    Factor { by: 16_309, logarithm: 18_793_046_762 },
    Factor { by: 16_305, logarithm: 19_797_768_666 },
    Factor { by: 16_301, logarithm: 20_802_737_082 },
    Factor { by: 16_297, logarithm: 21_807_952_131 },
    Factor { by: 16_293, logarithm: 22_813_413_934 },
    Factor { by: 16_289, logarithm: 23_819_122_612 },
    Factor { by: 16_285, logarithm: 24_825_078_287 },
    Factor { by: 16_281, logarithm: 25_831_281_081 },
    Factor { by: 16_277, logarithm: 26_837_731_113 },
    Factor { by: 16_273, logarithm: 27_844_428_507 },
    Factor { by: 16_269, logarithm: 28_851_373_383 },
    Factor { by: 16_265, logarithm: 29_858_565_864 },
    Factor { by: 16_261, logarithm: 30_866_006_071 },
    Factor { by: 16_257, logarithm: 31_873_694_126 },
    Factor { by: 16_254, logarithm: 32_629_622_890 },
    Factor { by: 16_250, logarithm: 33_637_744_973 },
    Factor { by: 16_246, logarithm: 34_646_115_239 },
    Factor { by: 16_242, logarithm: 35_654_733_811 },
    Factor { by: 16_238, logarithm: 36_663_600_811 },
    Factor { by: 16_234, logarithm: 37_672_716_362 },
    Factor { by: 16_230, logarithm: 38_682_080_586 },
    Factor { by: 16_226, logarithm: 39_691_693_605 },
    Factor { by: 16_222, logarithm: 40_701_555_543 },
    Factor { by: 16_218, logarithm: 41_711_666_523 },
    Factor { by: 16_214, logarithm: 42_722_026_666 },
    Factor { by: 16_210, logarithm: 43_732_636_096 },
    Factor { by: 16_206, logarithm: 44_743_494_936 },
    Factor { by: 16_203, logarithm: 45_501_802_816 },
    Factor { by: 16_199, logarithm: 46_513_098_420 },
    Factor { by: 16_195, logarithm: 47_524_643_773 },
    Factor { by: 16_191, logarithm: 48_536_438_998 },
    Factor { by: 16_187, logarithm: 49_548_484_219 },
    Factor { by: 16_183, logarithm: 50_560_779_560 },
    Factor { by: 16_179, logarithm: 51_573_325_143 },
    Factor { by: 16_175, logarithm: 52_586_121_093 },
    Factor { by: 16_171, logarithm: 53_599_167_534 },
    Factor { by: 16_167, logarithm: 54_612_464_589 },
    Factor { by: 16_164, logarithm: 55_372_601_920 },
    Factor { by: 16_160, logarithm: 56_386_337_849 },
    Factor { by: 16_156, logarithm: 57_400_324_734 },
    Factor { by: 16_152, logarithm: 58_414_562_699 },
    Factor { by: 16_148, logarithm: 59_429_051_868 },
    Factor { by: 16_144, logarithm: 60_443_792_366 },
    Factor { by: 16_140, logarithm: 61_458_784_318 },
    Factor { by: 16_136, logarithm: 62_474_027_848 },
];

// The entry at i, and past the end the last.
pub fn fine(i: u64) -> Factor
    ensures { result ≡ fine_at i }
{
    let place = i.min(63) as usize;
    FINE[place]
}
