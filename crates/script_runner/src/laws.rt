ghost use Rattle.std.specs.Prelude.{◌≡◌, ℕ, List};
ghost use Rattle.script_cluster.specs.Outcomes.{Outcome};
ghost use Rattle.script_cluster.specs.Run.{run as run_of_nodes};
ghost use Rattle.script_runner.specs.Run.{run};
ghost use Rattle.script_runner.specs.Alike.{KeepsAlike};

/// A run has one list of commands: at every moment state machines that have applied as many of them hold the same files and pending pages, and
/// are shown so. What happens at nodes, and what is noted of it, is as in the run of nodes.
pub fn runs_keep_alike()
    ensures alike { (script : List ℕ) (outcomes : List Outcome) → KeepsAlike script outcomes }
    ensures turns { (script : List ℕ) (outcomes : List Outcome) → (run script outcomes).turns ≡ (run_of_nodes script outcomes).turns }
    ensures journal { (script : List ℕ) (outcomes : List Outcome) → (run script outcomes).journal ≡ (run_of_nodes script outcomes).journal }
{}
