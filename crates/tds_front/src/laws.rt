//! What an application's end promises whoever connects, over any list of packets and of what is heard
//! of the server. Each function does nothing when it runs: its contract is the law.
ghost use Rattle.std.specs.Prelude.{◌≡◌, ◌≤◌, ◌+◌, ◌∷◌, [], ℕ, IfOk, List, None, true, false, Ok, Err};
ghost use Rattle.tds_packet.specs.Layout.{bits_of, has_bit};
ghost use Rattle.tds_front.specs.declared.fault.FrontFault.{FrontFault};
ghost use Rattle.tds_front.specs.declared.stage.Head.{Head};
ghost use Rattle.tds_front.specs.declared.stage.Stage.{Stage};
ghost use Rattle.tds_front.specs.declared.stage.Stage.TheVariants as stages;
ghost use Rattle.tds_front.specs.declared.stage.Action.TheVariants as actions;
ghost use Rattle.tds_front.specs.Promises.{Event, count, handed_in, here_in, is_gone, is_passed, is_whole};
ghost use Rattle.tds_front.specs.Promises.{settled_in, taken_in};
ghost use Rattle.tds_front.specs.declared.front.Front.{Front};
ghost use Rattle.tds_front.specs.declared.front.Fed.{Fed};
ghost use Rattle.tds_front.specs.Bytes.{TakesSome, fed, new_front};
ghost use Rattle.tds_front.specs.Passing as passing;
ghost use Rattle.tds_front.specs.Passing.{EndsWhere, EndsWhole, SaysOf, happenings_of, judged, stage_fed, towards};
ghost use Rattle.tds_front.specs.Rules.{taken};
ghost use Rattle.tds_front.specs.Serving.{Broken, Happening, IsLawful, Ready};
ghost use Rattle.tds_front.specs.Exchanges.{IsFront, IsSilent, place_after};

/// An application's end is a lawful server's towards whoever connects, where what is behind it is a
/// lawful server's end towards what goes on.
pub fn lawful_front()
    ensures { (events : List passing.FrontEvent) → EndsWhole stages.Quiet events
        → IsLawful Ready (happenings_of stages.Quiet events)
        → IsLawful Ready (towards None stages.Quiet events) }
{}

/// A call with bytes is what `lawful_front` calls a packet where a packet's header ends with them, and
/// a refusal where it answers one; it says of the packet what is done, and a request's end where it is
/// whole.
pub fn bytes_are_packets()
    ensures stage { (front : Front) (bytes : List ℕ) → (fed front bytes).front.stage
        ≡ stage_fed front.stage (judged front.due bytes) (fed front bytes).brings }
    ensures says { (front : Front) (bytes : List ℕ)
        → SaysOf front.stage (judged front.due bytes) (fed front bytes).brings }
    ensures ends { (front : Front) (bytes : List ℕ)
        → EndsWhere (fed front bytes).front.stage (fed front bytes).brings }
{}

/// Each call with bytes takes one at least, from the first one on.
pub fn takes_some()
    ensures first { (most : ℕ) → TakesSome (new_front most) }
    ensures each { (front : Front) (byte : ℕ) (bytes : List ℕ) → TakesSome front
        → TakesSome (fed front (byte ∷ bytes)).front × IfOk (fed front (byte ∷ bytes)).brings
        (λ (taken : Fed). 1 ≤ taken.count) }
    ensures none { (front : Front) → TakesSome front → TakesSome (fed front []).front }
{}

/// What is lawful is exchanges, one behind the other, of which the last may go on: up to a fault, and no
/// packet of an exchange is one. Behind a fault nothing goes to the client.
pub fn exchanges()
    ensures each { (happenings : List Happening) → IsFront happenings → IsLawful Ready happenings }
    ensures only { (happenings : List Happening) → IsLawful Ready happenings
        → (place_after Ready happenings ≡ Broken → ⊥) → IsFront happenings }
    ensures no_fault { (happenings : List Happening) → IsFront happenings
        → place_after Ready happenings ≡ Broken → ⊥ }
    ensures silent { (happenings : List Happening)
        → IsLawful Broken happenings → IsSilent happenings }
{}

/// Each attention that is taken has one acknowledgement: the relay's, or the server's, which is handed
/// it. And of those that were handed on no second one is before the first one's acknowledgement.
pub fn one_acknowledgement()
    ensures one { (stage : Stage) (events : List Event)
        → count taken_in stage events ≡ count here_in stage events + count handed_in stage events }
    ensures settled { (events : List Event) → count settled_in stages.Quiet events
        ≤ count handed_in stages.Quiet events }
    ensures at_once { (events : List Event) → count handed_in stages.Quiet events
        ≤ count settled_in stages.Quiet events + 1 }
{}

/// Who has something of the request acknowledges its attention: the relay does so where nothing of it
/// has gone on, and only then.
pub fn whose_acknowledgement()
    ensures here { (stage : Stage) (head : Head)
        → (taken stage head).does ≡ Ok actions.Acknowledge → is_gone stage ≡ false }
    ensures handed_on { (stage : Stage) (head : Head)
        → (taken stage head).does ≡ Ok actions.HandOn → is_gone stage ≡ true }
{}

/// Behind a request's end nothing goes on until it is answered, or its attention acknowledged.
pub fn nothing_behind_the_end()
    ensures { (stage : Stage) (head : Head) → is_whole stage ≡ true
        → is_passed (taken stage head).does ≡ false }
{}

/// A packet that says to ignore its message isn't handed on (MS-TDS 2.2.3.1.2).
pub fn ignored_is_not_handed_on()
    ensures { (stage : Stage) (head : Head) → has_bit (bits_of head.status) 2 ≡ true
        → is_passed (taken stage head).does ≡ false }
{}

/// Behind a fault everything is that fault.
pub fn a_fault_stays()
    ensures stage { (fault : FrontFault) (head : Head)
        → (taken (stages.Broken fault) head).stage ≡ stages.Broken fault }
    ensures does { (fault : FrontFault) (head : Head)
        → (taken (stages.Broken fault) head).does ≡ Err fault }
{}
