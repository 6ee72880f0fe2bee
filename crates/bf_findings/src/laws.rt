//! What holds of the definitions.
ghost use Rattle.std.specs.Prelude.{Contains};
ghost use Rattle.serde_json.specs.Data.{Data};
ghost use Rattle.bf_findings.specs.EachPlace.{IsPlace};
ghost use Rattle.bf_findings.specs.Listed.{places_in};
ghost use Rattle.bf_findings.specs.declared.place.DocumentPlace.{DocumentPlace};

/// A law: the check looks at each place of a document where something stands, and at each known key.
pub fn each_place_is_listed()
    ensures { (d : Data) (place : DocumentPlace) → IsPlace d place → Contains (places_in d) place }
{}
