//! What each client is told depends on its own calls alone.
ghost use Rattle.std.specs.Prelude.{◌≡◌, ◌≢◌, ℕ, List, true, false};
ghost use Rattle.answers.specs.ByteVerdicts.{ByteVerdict};
ghost use Rattle.desk.specs.Machine.{State, Call, Reply, Step};
ghost use Rattle.desk.specs.Runs.{Run, AmpleRun, nothing_open, calls_of, replies_to, is_nine, is_refused, HasNoNine};

/// Whatever calls of all clients come, in whatever order, and to whomever memory is refused: to a
/// client who is never told that memory is wanting, the replies are those that its own calls alone
/// get, in their order, at a new desk where memory is refused to nobody; and its own calls get no
/// other replies there.
pub fn own_calls_decide()
    ensures alone { (cost : List ℕ → ℕ → ℕ) (verdict : List ℕ → ℕ → ByteVerdict)
        → (calls : List Call) (replies : List Reply) (end : State) (client : ℕ)
        → Run (Step cost verdict) nothing_open calls replies end
        → HasNoNine (replies_to client calls replies)
        → AmpleRun cost verdict nothing_open (calls_of client calls)
        (replies_to client calls replies) }
    ensures only { (cost : List ℕ → ℕ → ℕ) (verdict : List ℕ → ℕ → ByteVerdict) (calls : List Call)
        (a b : List Reply)
        → AmpleRun cost verdict nothing_open calls a
        → AmpleRun cost verdict nothing_open calls b
        → a ≡ b }
{
    player::right_answers_are_one();
}

/// In each step every other client's jobs stay. Where the reply isn't that memory is wanting, it is
/// decided by the caller's own jobs and the event, and so are the jobs that the caller has then. A
/// refusal leaves every job as it was.
pub fn steps_are_the_clients_own()
    ensures others { (cost : List ℕ → ℕ → ℕ) (verdict : List ℕ → ℕ → ByteVerdict) (old new : State)
        (call : Call) (reply : Reply) (client : ℕ)
        → Step cost verdict old call reply new → client ≢ call.client → new client ≡ old client }
    ensures own { (cost : List ℕ → ℕ → ℕ) (verdict : List ℕ → ℕ → ByteVerdict)
        (old new other next : State) (call : Call) (a b : Reply)
        → Step cost verdict old call a new → Step cost verdict other call b next
        → old call.client ≡ other call.client
        → is_nine a ≡ false → is_nine b ≡ false
        → (a ≡ b) × (new call.client ≡ next call.client) }
    ensures unchanged { (cost : List ℕ → ℕ → ℕ) (verdict : List ℕ → ℕ → ByteVerdict) (old new : State)
        (call : Call) (reply : Reply)
        → Step cost verdict old call reply new → is_refused reply ≡ true → new ≡ old }
{
    player::right_answers_are_one();
}
