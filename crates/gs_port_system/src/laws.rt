ghost use Rattle.std.specs.Prelude.{◌≡◌, ◌≤◌, ℕ, ◌++◌, All, List, map};
ghost use Rattle.gs_port_system.specs.Budgets.{Call, EndsBy, Move, budget_of, head_limit, later, read, read_until, reply_limit, ten_seconds, time_of, write, write_until};

/// States until when the reads and writes of a connection wait, whatever its calls before. A read waits until ten seconds after
/// the read that followed the head's first bytes. A write waits until ten seconds for each MiB of the reply that is begun, after
/// its first write. None waits more than ten seconds, if the clock does not go back.
pub fn calls_end_in_time()
    ensures head { (before : List Move) (reads : List Call) (time : ℕ) → EndsBy write before
        → read_until (budget_of (before ++ map read reads)) time ≡ head_limit reads time }
    ensures reply { (before : List Move) (writes : List Call) (time : ℕ) → EndsBy read before
        → write_until (budget_of (before ++ map write writes)) time ≡ reply_limit writes time }
    ensures from_now { (before : List Move) (time : ℕ) → All (λ move. time_of move ≤ time) before
        → (read_until (budget_of before) time ≤ later time ten_seconds)
        × (write_until (budget_of before) time ≤ later time ten_seconds) }
{}
