//! A law of loop-free code: instrumented runs.
#![tactic(auto)]

ghost use Rattle.std.specs.Prelude.{◌≡◌, ℕ, true, List, []};
ghost use Rattle.std.specs.List.{list_all};
ghost use Rattle.ba_code.specs.Facts.{is_unrolled};
ghost use Rattle.ba_code.specs.Meaning.{Setting, run_nodes};
ghost use Rattle.ba_code.specs.Operators.{converting};
ghost use Rattle.ba_code.specs.declared.nodes.ArrayInfo.{ArrayInfo};
ghost use Rattle.ba_code.specs.declared.nodes.Node.{Node};
ghost use Rattle.ba_code_laws.specs.Tracing.{Relaxes, Traced, trace_nodes, without_trace};

/// Law: a run that notes its places has the same outcome as the run without them.
pub fn places_change_no_run()
    ensures { (relaxes : Relaxes) (arrays : List ArrayInfo) (bound : ℕ) (nodes : List Node)
        (s : Traced)
        → list_all is_unrolled nodes ≡ true
        → without_trace (trace_nodes relaxes arrays nodes s) ≡ run_nodes
        (record { relaxes = relaxes; turns = bound; arrays = arrays; operators = converting })
        nodes [] s.code }
{}
