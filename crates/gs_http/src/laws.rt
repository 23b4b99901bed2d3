ghost use Rattle.std.specs.Prelude.{◌≡◌, ℕ, Bool, List};
ghost use Rattle.gs_ai.specs.declared.row.AiRow.{AiRow};
ghost use Rattle.gs_links.specs.declared.link.Link.{Link};
ghost use Rattle.gs_http.specs.Replies.{IsReply};
ghost use Rattle.gs_http.specs.Streams.{IsReplies};
ghost use Rattle.gs_http.specs.declared.replies.Reply.{Reply as Answered};
ghost use Rattle.gs_http.specs.declared.resolver.Settings.{Settings as How};

/// States that a head has exactly one reply, by any table, links and settings.
pub fn one_reply()
    ensures some { (table : List AiRow) (links : List Link) (settings : How) (head : List ℕ) (last : Bool)
        → (reply : Answered) × IsReply table links settings head last reply }
    ensures one { (table : List AiRow) (links : List Link) (settings : How) (head : List ℕ) (last : Bool)
        (a b : Answered) → IsReply table links settings head last a → IsReply table links settings head last b
        → a ≡ b }
{}

/// States that a stream has exactly one answer, the bytes of its replies, for any number of allowed replies.
pub fn one_answer_to_a_stream()
    ensures some { (table : List AiRow) (links : List Link) (settings : How) (most : ℕ) (stream : List ℕ)
        → (output : List ℕ) × IsReplies table links settings most stream output }
    ensures one { (table : List AiRow) (links : List Link) (settings : How) (most : ℕ) (stream : List ℕ)
        (a b : List ℕ) → IsReplies table links settings most stream a
        → IsReplies table links settings most stream b → a ≡ b }
{}
