//! Laws of merged cells and hyperlinks, and of the relationships that lead to them.

ghost use Rattle.std.specs.Prelude.{◌≡◌, ℕ, List, Option, Some};
ghost use Rattle.cell_refs.specs.declared.dimensions.Dimensions.{Dimensions};
ghost use Rattle.part_events.specs.Words.{Event, Part};
ghost use Rattle.xlsx_error.specs.declared.error.XlsxError.{XlsxError};
ghost use Rattle.xlsx_parts.specs.Words.{SheetPath};
ghost use Rattle.looks.specs.Words.{look_said, LookCause};
ghost use Rattle.xlsx_relationships.specs.Words.{LinkTarget, link_targets, LinkTargetsCause};
ghost use Rattle.xlsx_relationships.specs.Words.{related_look};
ghost use Rattle.xlsx_areas.specs.Hyperlinks.{Link, links_look};
ghost use Rattle.xlsx_areas.specs.MergeErrors.{MergesCause, RegionsCause};
ghost use Rattle.xlsx_areas.specs.MergedCells.{merges_of, regions_of};
ghost use Rattle.xlsx_areas.specs.Regions.{Region, all_regions, AllRegionsCause};

/// A part whose merged cells can be taken has no cause of a refusal, neither of those of its first
/// section nor of all, and neither have sheets whose merged cells can all be taken.
pub fn merges_have_no_cause_of_a_refusal()
    ensures merges { (events : List Event) (areas : List Dimensions) (error : XlsxError) →
        merges_of events ≡ Some areas → MergesCause events error → ⊥ }
    ensures regions { (events : List Event) (areas : List Dimensions) (error : XlsxError) →
        regions_of events ≡ Some areas → RegionsCause events error → ⊥ }
    ensures all { (parts : List Part) (sheets : List SheetPath) (found : List Region)
        (error : XlsxError) → all_regions parts sheets ≡ Some found →
        AllRegionsCause parts sheets error → ⊥ }
{}

/// A sheet whose hyperlinks can be taken has no cause of a refusal, neither in its part nor in its
/// relationships.
pub fn links_have_no_cause_of_a_refusal()
    ensures { (parts : List Part) (path : List ℕ) (found : Option (List Link))
        (error : XlsxError) → look_said (links_look path) parts ≡ Some found →
        LookCause (links_look path) parts error → ⊥ }
{}

/// Relationships whose targets can be taken have no cause of a refusal, neither where those of one
/// type are sought nor where links are.
pub fn targets_have_no_cause_of_a_refusal()
    ensures related { (parts : List Part) (wanted path : List ℕ) (found : List (List ℕ))
        (error : XlsxError) → look_said (related_look wanted path) parts ≡ Some found →
        LookCause (related_look wanted path) parts error → ⊥ }
    ensures links { (parts : List Part) (path : List ℕ) (found : List LinkTarget)
        (error : XlsxError) → link_targets parts path ≡ Some found →
        LinkTargetsCause parts path error → ⊥ }
{}
