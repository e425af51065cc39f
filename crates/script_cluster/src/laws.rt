ghost use Rattle.script_cluster.specs.Examples.{CandidatesSay, CandidatesStand, StoppedSays, StoppedStands, StoppedNotes};
ghost use Rattle.script_cluster.specs.Examples.{ClosingSays, ClosingNotes, ClosingHalts, ClosingCounts};
ghost use Rattle.script_cluster.specs.Rows.{CandidatesSaid, StoppedSaid, FailedSaid, MissingSaid, NoNodesSaid, PutSaid, PutPrints, EmptySaid, AskingSaid};

/// Small scripts, computed: what they say, how nodes are then, and what is noted.
pub fn scripts_play()
    ensures candidates { CandidatesSay }
    ensures candidates_stand { CandidatesStand }
    ensures stopped { StoppedSays }
    ensures stopped_stands { StoppedStands }
    ensures stopped_notes { StoppedNotes }
    ensures closing { ClosingSays }
    ensures closing_notes { ClosingNotes }
    ensures closing_halts { ClosingHalts }
    ensures closing_counts { ClosingCounts }
{}

/// Whole scripts, computed from their bytes to what is said and the fault at which they end.
pub fn scripts_run()
    ensures candidates { CandidatesSaid }
    ensures stopped { StoppedSaid }
    ensures failed { FailedSaid }
    ensures missing { MissingSaid }
    ensures no_nodes { NoNodesSaid }
    ensures put { PutSaid }
    ensures put_prints { PutPrints }
    ensures empty { EmptySaid }
    ensures asking { AskingSaid }
{}
