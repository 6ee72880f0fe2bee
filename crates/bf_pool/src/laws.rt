//! What holds of the definitions. This function does nothing: its contract is the law.
ghost use Rattle.std.specs.Prelude.{◌≡◌, ◌↔◌, ℕ, true, List};
ghost use Rattle.bf_graph.specs.Ranks.{Ranking};
ghost use Rattle.bf_graph.specs.Reach.{Reaches};
ghost use Rattle.bf_pool.specs.Weights.{does_reach};

/// A law: the test by which tasks count for a weight finds a path exactly where one leads. Where each task has a
/// rank, as in every graph, no path is longer than the test looks.
pub fn reaches_where_a_path_leads()
    ensures { (upstreams : List (List ℕ)) → Ranking upstreams → (from to : ℕ) →
        (does_reach upstreams from to ≡ true) ↔ Reaches upstreams from to }
{}
