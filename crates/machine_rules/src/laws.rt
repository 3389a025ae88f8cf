//! Laws about rules and refusals. The clause of each function is the law; the functions do nothing, and
//! nothing calls them.

ghost use Rattle.std.specs.Prelude.{◌≡◌, ◌↔◌, List, Option, AllPairs, IsTrue};
ghost use Rattle.ata_types.specs.{declared.request.ClientId.{ClientId}, declared.request.Frame.{Frame}, declared.request.RequestId.{RequestId}, declared.request.Request.{Request}, declared.refusal.Rule.{Rule}, declared.refusal.Refusal.{Refusal}, declared.grant.GrantRow.{GrantRow}, declared.range.Range.{Range}, Range.{Overlaps}};
ghost use Rattle.block_machine.specs.{Rules.{DifferInName, IsFirstBroken}, Refusals.{AdmissionContext, IsFirstRefusal}, DueRequests.{are_overlapping}};

/// One rule is the first that a request breaks.
pub fn law_first_broken_is_unique()
    ensures { (rows : List GrantRow) (owner : Frame → Option ClientId)
        (lent : Frame → Option RequestId)
        (r : Request) (one other : Rule) → IsFirstBroken rows owner lent r one
        → IsFirstBroken rows owner lent r other → one ≡ other }
{}

/// One cause is the first that applies to a request.
pub fn law_first_refusal_is_unique()
    ensures { (s : AdmissionContext) (r : Request) (one other : Refusal) → AllPairs DifferInName s.rows
        → IsFirstRefusal s r one → IsFirstRefusal s r other → one ≡ other }
{}

/// Two ranges overlap, by the test, exactly if a sector is in both.
pub fn law_overlap_test_is_exact()
    ensures { (a b : Range) → IsTrue (are_overlapping a b) ↔ Overlaps a b }
{}
