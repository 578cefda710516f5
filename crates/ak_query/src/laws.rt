//! Laws of queries.
ghost use Rattle.std.specs.Prelude.{◌≡◌, ℕ, List, Result};
ghost use Rattle.ak_base.specs.declared.refusal.Refusal.{Refusal};
ghost use Rattle.ak_query.specs.declared.query.Query.{Query};
ghost use Rattle.ak_query.specs.Reads.{QueryGives};

/// Bytes spell one query or have one refusal, and not both.
pub fn one_query()
    ensures { (scale : ℕ) (bytes : List ℕ) (a b : Result Query Refusal)
        → QueryGives scale bytes a → QueryGives scale bytes b → a ≡ b }
{}

/// All bytes spell a query or have a refusal.
pub fn every_query()
    ensures { (scale : ℕ) (bytes : List ℕ) → (a : Result Query Refusal) × QueryGives scale bytes a }
{}
