//! Lists of weighted items and their expectations, over unbounded whole numbers.

ghost use Rattle.plain_list.specs.weighted.Laws.{TotalOfAppend, TotalOfMap, TotalOfSum, TotalOfMultiple};
ghost use Rattle.plain_list.specs.weighted.Laws.{TotalOfSame, TotalOfSmaller};
ghost use Rattle.plain_list.specs.weighted.Laws.{MeanOfSum, MeanOfMultiple, MeanOfConstant, MeanOfScaled};
ghost use Rattle.plain_list.specs.weighted.Laws.{MeanOfReduced, MeanOfProducts, MeanOfMerged, MeanOfPositive};
ghost use Rattle.plain_list.specs.weighted.Laws.{TotalOfProducts, TotalOfMerged, TotalOfPositive};
ghost use Rattle.plain_list.specs.weighted.Laws.{LengthOfMerging};
ghost use Rattle.plain_list.specs.weighted.Laws.{AlikeIsSymmetric, AlikeIsTransitive, AlikeScaled};
ghost use Rattle.plain_list.specs.weighted.Laws.{AlikeReduced, AlikeProducts, AlikeFromChances};
ghost use Rattle.plain_list.specs.weighted.Laws.{AlikeIsBelow, AlikeHasMember};

/// The laws of totals.
pub fn total_laws<C, D>()
    ensures append { TotalOfAppend C }
    ensures map { TotalOfMap C D }
    ensures sum { TotalOfSum C }
    ensures multiple { TotalOfMultiple C }
    ensures same { TotalOfSame C }
    ensures smaller { TotalOfSmaller C }
{}

/// The laws of means.
pub fn mean_laws<C, D, X>()
    ensures sum { MeanOfSum C X }
    ensures multiple { MeanOfMultiple C X }
    ensures constant { MeanOfConstant C X }
    ensures scaled { MeanOfScaled C D X }
    ensures reduced { MeanOfReduced C D X }
    ensures products { MeanOfProducts C X }
    ensures merged { MeanOfMerged C X }
    ensures positive { MeanOfPositive C X }
    ensures weight_of_products { TotalOfProducts C X }
    ensures weight_of_merged { TotalOfMerged C X }
    ensures weight_of_positive { TotalOfPositive C }
    ensures length_of_merging { LengthOfMerging C }
{}

/// The laws of weighted lists that are alike, each over its denominator.
pub fn alike_laws<C, D, E, X>()
    ensures symmetric { AlikeIsSymmetric C D X }
    ensures transitive { AlikeIsTransitive C D E X }
    ensures scaled { AlikeScaled C D X }
    ensures reduced { AlikeReduced C D X }
    ensures products { AlikeProducts C D X }
    ensures chances { AlikeFromChances C D X }
    ensures below { AlikeIsBelow C D X }
    ensures member { AlikeHasMember C D X }
{}
