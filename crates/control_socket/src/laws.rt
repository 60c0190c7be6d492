//! What holds of a client over any steps of its dialogue. The function does nothing: its contract is the law.

ghost use Rattle.std.specs.Prelude.{◌≡◌, ◌++◌, ℕ, IfSome};
ghost use Rattle.slab.specs.Slab.{Slab, get};
ghost use Rattle.control_socket.specs.declared.client.Client.{Client};
ghost use Rattle.control_socket.specs.declared.dialogue.Dialogue.{Dialogue};
ghost use Rattle.control_socket.specs.Clients.{AllGoOn};
ghost use Rattle.control_socket.specs.Dialogues.{Converses};
ghost use Rattle.control_socket.specs.Exchanges.{brought_in, lines_in, replies_in, sent_in};
ghost use Rattle.control_socket.specs.Lives.{AnswersClients, IsAlive, IsVacant, Lives, Rounds, answered_of, brought_to, replied_to, sent_to};

use crate::turn::Answers;

/// Take the bytes that a client was sent, and after them those that wait to be sent. They are what waited at first, and
/// then the lines of the replies to its own lines, in their order, each once.
pub fn a_client_is_sent_the_replies_to_its_lines<A: Answers>(answers: &A)
    ensures sent { (first new : Dialogue) (from after : A) →
        (all : Converses A.Answered first from new after) →
        sent_in all ++ new.replies.items ≡ first.replies.items ++ replies_in all }
    // The lines that were answered, and those that still wait, are together those that waited at first and then those that its pieces brought.
    ensures lines { (first new : Dialogue) (from after : A) →
        (all : Converses A.Answered first from new after) →
        lines_in all ++ new.requests.lines ≡ first.requests.lines ++ brought_in all }
{
    let _ = answers;
}

/// A socket began with no client, and then clients were served and clients came, in any order. Each line that is
/// answered where clients are served is the next whole line of one client. That client came with an empty dialogue, and
/// went on by the pieces that came for it alone.
pub fn each_line_is_a_clients_next<A: Answers>(answers: &A)
    ensures lines { (first mid new : Slab Client) (before after : A) →
        IsVacant first → Rounds A.Answered first mid → AllGoOn A.Answered mid before new after →
        AnswersClients A.Answered before after }
    // This holds for each client that has a place, unless a read of it failed.
    ensures clients { (first new : Slab Client) →
        IsVacant first → Rounds A.Answered first new →
        (key : ℕ) → IfSome (get new key) (IsAlive A.Answered) }
    // All that it was sent, and what waits to be sent, are the replies to its own lines, in their order, each once.
    ensures sent { (dialogue : Dialogue) → (life : Lives A.Answered dialogue) →
        sent_to life ++ dialogue.replies.items ≡ replied_to life }
    // Its lines that were answered, and those that wait, are all that its pieces brought, in their order.
    ensures brought { (dialogue : Dialogue) → (life : Lives A.Answered dialogue) →
        answered_of life ++ dialogue.requests.lines ≡ brought_to life }
{
    let _ = answers;
}
