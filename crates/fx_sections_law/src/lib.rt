//! What a placement means: which pages and addresses belong to whom, and what the PKRU value of a
//! compartment permits.
#![tactic(auto)]

ghost use Rattle.fx_sections_law.specs.Granules.{GranulesAreUnshared};
ghost use Rattle.fx_sections_law.specs.Laws.{PairsDiffer, SectionsAreApart, GlobalsAreInTheirSections, GlobalsAreApart};
ghost use Rattle.fx_sections_law.specs.Laws.{GlobalsStandBehindTheRuntime, RegionsAreApart};
ghost use Rattle.fx_sections_law.specs.Permits.{KeysPermitWhatIsGranted};
ghost use Rattle.fx_sections_law.specs.PlacementLaw.{PlacementsKeepTheLaw};
ghost use Rattle.fx_sections_law.specs.Table.{TablesAscend};

/// Every section is of one pair of readers and writers, and no two are of the same.
pub fn pairs_differ()
    ensures { PairsDiffer }
{}

/// One unmapped page follows each section.
pub fn sections_are_apart()
    ensures { SectionsAreApart }
{}

/// Each global lies in pages of exactly its pair.
pub fn globals_are_in_their_sections()
    ensures { GlobalsAreInTheirSections }
{}

/// No two objects of a section share 16 bytes that begin at a multiple of 16.
pub fn globals_are_apart()
    ensures apart { GlobalsAreApart }
    ensures behind { GlobalsStandBehindTheRuntime }
{}

/// Sections and literals lie apart from every other region of the layout.
pub fn regions_are_apart()
    ensures { RegionsAreApart }
{}

/// No two objects of a program share a granule, the 16 bytes that begin at a multiple of 16; literals and
/// the runtime's objects included.
pub fn granules_are_unshared()
    ensures { GranulesAreUnshared }
{}

/// A compartment's PKRU value permits exactly what the pairs of the sections grant.
pub fn keys_permit_what_is_granted()
    ensures { KeysPermitWhatIsGranted }
{}

/// The table of a placement has exactly one row for each object that has an address for good: the runtime's of
/// each compartment, and each global. Addresses ascend, and each object ends 16 bytes or more before the next.
pub fn tables_ascend()
    ensures { TablesAscend }
{}

/// A placement keeps all of these laws, which are one: every page of a section belongs to one pair, each object
/// lies in pages of exactly its own pair, and keys permit what the pairs grant.
pub fn placements_keep_the_law()
    ensures { PlacementsKeepTheLaw }
{}
