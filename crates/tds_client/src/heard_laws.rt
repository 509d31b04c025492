//! What follows of the client's machine whoever reads the answers, and by whichever rules. Each
//! function does nothing when it runs: its contract is the law.

ghost use Rattle.std.specs.Prelude.{◌≡◌, ◌≢◌, ◌+◌, ℕ, List, [], Bool, None, Some, Ok, Err};
ghost use Rattle.std.specs.Prelude.{if◌then◌else◌, false};
ghost use Rattle.tds_packet.specs.Size.{IsPacketSize};
ghost use Rattle.tds_packet.specs.declared.status.Reset.{Reset};
ghost use Rattle.tds_packet.specs.declared.status.Reset.TheVariants.{Full};
ghost use Rattle.tds_token.specs.Contents.{contents_of};
ghost use Rattle.tds_client.specs.declared.sign.Rules.{Rules};
ghost use Rattle.tds_client.specs.declared.sign.Rules.TheVariants.{Any, Strict};
ghost use Rattle.tds_client.specs.declared.fault.ClientFault.TheVariants.{BehindFinalDone, UnaskedReset, WrongEnvChange};
ghost use Rattle.tds_client.specs.declared.heard.FinalDone.TheVariants.{Awaited};
ghost use Rattle.tds_client.specs.declared.sign.Sign.{Sign};
ghost use Rattle.tds_client.specs.declared.sign.Sign.TheVariants as signs;
ghost use Rattle.tds_token.specs.declared.env_change.EnvChange.TheVariants.{Begin, Commit, ResetDone, Rollback};
ghost use Rattle.tds_client.specs.declared.state.Taken.TheVariants as takes;
ghost use Rattle.tds_client.specs.Acts.{Act, IsPlaced, act, acted, behind, begins_first, changes_in};
ghost use Rattle.tds_client.specs.Acts.{has_acknowledgement, has_reset, in_none, message_of, put_out};
ghost use Rattle.tds_client.specs.Acts.{server_says, told_by};
ghost use Rattle.tds_client.specs.Machine.{ItemMove, Listens, all_signed, message_ended, signed};
ghost use Rattle.tds_client.specs.Machine.{taken_by_signs, without_tokens};
ghost use Rattle.tds_client.specs.Promises.{acknowledgements, AtMostAttentions, LeavesBy};
ghost use Rattle.tds_client.specs.Session.{ClientSession, new_session};
ghost use Rattle.tds_client.specs.Session.{Idle, Reading, Cancelling};
ghost use Rattle.tds_client.specs.Taking.{taken};

/// Taking a packet is hearing the signs of its tokens, one behind the other, and its end, by the
/// rules of the strict profile.
pub fn taking_is_hearing()
    ensures reading { (s : ClientSession) (ends : Bool) (bytes : List ℕ) → s.stage ≡ Reading
        → without_tokens (taken s ends bytes)
        ≡ taken_by_signs s ends (contents_of s.columns bytes) }
    ensures cancelling { (s : ClientSession) (ends : Bool) (bytes : List ℕ) → s.stage ≡ Cancelling
        → without_tokens (taken s ends bytes)
        ≡ taken_by_signs s ends (contents_of s.columns bytes) }
{}

/// Of all that a client appends, in any acts, at most one attention more goes out than
/// acknowledgements are heard; and only an acknowledgement leads from cancelling to idle.
pub fn one_attention_out()
    ensures way_out { (s : ClientSession) (a : Act) → s.stage ≡ Cancelling
        → LeavesBy (act s a).acknowledged (act s a).session.stage }
    ensures never_twice { (size : ℕ) (before acts : List Act) (s : ClientSession)
        → IsPacketSize size → s ≡ behind (new_session size) before
        → AtMostAttentions size (put_out s acts) (acknowledgements (acted s acts) + 1) }
{}

/// Behind a cancel nothing is told until the attention is acknowledged, whatever is heard.
pub fn nothing_told()
    ensures { (s : ClientSession) (acts : List Act) → s.stage ≡ Cancelling
        → acknowledgements (acted s acts) ≡ 0 → told_by s acts ≡ [] }
{}

/// A client that is cancelling is idle again exactly at the end of a message in which a DONE has
/// bit 0020, wherever in the message it stands.
pub fn idle_when_acknowledged()
    ensures { (size : ℕ) (acts : List Act) (s : ClientSession) (rules : Rules) (move : ItemMove)
        → s ≡ behind (new_session size) acts → s.stage ≡ Cancelling
        → message_ended rules s ≡ Ok move
        → (move.answer ≡ (if has_acknowledgement (message_of [] acts)
        then takes.Acknowledged else takes.More))
        × (move.session.stage ≡ (if has_acknowledgement (message_of [] acts)
        then Idle else Cancelling)) }
{}

/// Where signs are heard without a fault, the client's descriptor is what the server says by its
/// changes, one after the other; the mark is what they leave of it, and is cleared by the end of a
/// reset alone; and the client is where it was.
pub fn changes_are_followed()
    ensures descriptor { (rules : Rules) (s next : ClientSession) (signs : List Sign)
        → all_signed rules s signs ≡ Ok next
        → next.heard.descriptor
        ≡ server_says s.heard.mark s.heard.descriptor (changes_in signs) }
    ensures mark { (rules : Rules) (s next : ClientSession) (signs : List Sign)
        → all_signed rules s signs ≡ Ok next
        → next.heard.mark
        ≡ (if has_reset (changes_in signs) then None else s.heard.mark) }
    ensures stage { (rules : Rules) (s next : ClientSession) (signs : List Sign)
        → all_signed rules s signs ≡ Ok next → next.stage ≡ s.stage }
{}

/// A change that can't be placed is fault 4, and never passed over: a begin or an end of another
/// transaction than the one that is known, and a begin that is told before the end of a full reset.
pub fn changes_are_placed()
    ensures begin { (s : ClientSession) (d : ℕ) → Listens s.stage
        → s.heard.descriptor ≢ 0 → s.heard.descriptor ≢ d
        → signed Any s (signs.Change (Begin d)) ≡ Err WrongEnvChange }
    ensures commit { (s : ClientSession) (d : ℕ) → Listens s.stage
        → s.heard.descriptor ≢ 0 → s.heard.descriptor ≢ d
        → signed Any s (signs.Change (Commit d)) ≡ Err WrongEnvChange }
    ensures rollback { (s : ClientSession) (d : ℕ) → Listens s.stage
        → s.heard.descriptor ≢ 0 → s.heard.descriptor ≢ d
        → signed Any s (signs.Change (Rollback d)) ≡ Err WrongEnvChange }
    ensures early { (s : ClientSession) (d : ℕ) → Listens s.stage → s.heard.mark ≡ Some Full
        → signed Any s (signs.Change (Begin d)) ≡ Err WrongEnvChange }
    ensures first { (s next : ClientSession) (signs : List Sign) → s.heard.mark ≡ Some Full
        → all_signed Any s signs ≡ Ok next → begins_first (changes_in signs) ≡ false }
{}

/// By the rules of any server the news of a reset that nobody asked for is a full reset's: the
/// client is in no transaction behind it, and otherwise as it was. By the strict rules it is
/// fault 5.
pub fn unasked_resets_are_heard()
    ensures any { (s : ClientSession) → Listens s.stage → s.heard.mark ≡ None
        → signed Any s (signs.Change ResetDone) ≡ Ok (in_none s) }
    ensures strict { (s : ClientSession) → Listens s.stage → s.heard.mark ≡ None
        → s.heard.done ≡ Awaited → signed Strict s (signs.Change ResetDone) ≡ Err UnaskedReset }
{}

/// A message that is read ends behind a final DONE, and each begins without one. In the strict
/// profile nothing stands behind it.
pub fn messages_end_behind_done()
    ensures reading { (rules : Rules) (s : ClientSession) (move : ItemMove) → s.stage ≡ Reading
        → message_ended rules s ≡ Ok move → s.heard.done ≢ Awaited }
    ensures anew { (rules : Rules) (s : ClientSession) (move : ItemMove)
        → message_ended rules s ≡ Ok move → move.session.heard.done ≡ Awaited }
    ensures strict { (s : ClientSession) (sign : Sign) → Listens s.stage
        → s.heard.done ≢ Awaited → signed Strict s sign ≡ Err BehindFinalDone }
{}

/// What the strict rules hear without a fault, those of any server hear to the same: but for a
/// begin under a full mark, which only they refuse, and for one of descriptor 0.
pub fn rules_agree()
    ensures { (s next : ClientSession) (sign : Sign) → IsPlaced s.heard.mark sign
        → signed Strict s sign ≡ Ok next → signed Any s sign ≡ Ok next }
{}
