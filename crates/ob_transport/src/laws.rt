//! What holds of every pass.

ghost use Rattle.std.specs.List.{flat_map};
ghost use Rattle.std.specs.Prelude.{◌≡◌, ℕ, true, List, [], Result, Err, sum_by};
ghost use Rattle.ob_seq.specs.Answer.{are_accepted};
ghost use Rattle.ob_seq.specs.Rows.{Settings};
ghost use Rattle.ob_history.specs.History.{accepted_commands, IsLegal};
ghost use Rattle.ob_history.specs.declared.record.Record.{Record};
ghost use Rattle.ob_transport.specs.Pass.{GrowAlike, GrowAlikeBut, IsBooked, IsPass, Standing};
ghost use Rattle.ob_transport.specs.Sent.{sent_bytes, sent_in, sent_units};
ghost use Rattle.ob_transport.specs.declared.fault.Pass.{Pass};
ghost use Rattle.ob_transport.specs.declared.fault.PassFault.{PassFault};
ghost use Rattle.ob_transport.specs.declared.fault.PassFault.TheVariants.{Unbooked};
ghost use Rattle.ob_transport.specs.declared.limits.Limits.{Limits};

/// What a pass takes is sent, and nothing else: after accepted commands the bytes and the units taken grow by exactly
/// those by which the sent ones do, but for bytes that it leaves unbooked, which stand at the front.
pub fn what_a_pass_takes_is_sent()
    ensures alike { (limits : Limits) (caller : ℕ) (before after : Standing) (result : Result Pass PassFault) →
        are_accepted before.history.settings [] (accepted_commands before.history.records) ≡ true
        → IsPass limits caller before result after → IsBooked result → GrowAlike before after }
    ensures unbooked { (limits : Limits) (caller : ℕ) (before after : Standing) (taken : ℕ) →
        are_accepted before.history.settings [] (accepted_commands before.history.records) ≡ true
        → IsPass limits caller before (Err (Unbooked taken)) after → GrowAlikeBut taken before after }
{}

/// What a legal history sends is what its records send, one after another: so it can be read off the receipts of those
/// who send, each with its place.
pub fn a_history_sends_what_its_records_send()
    ensures bytes { (settings : Settings) (records : List Record) → IsLegal settings records
        → sent_bytes settings records ≡ flat_map (λ one. (sent_in settings records one).bytes) records }
    ensures units { (settings : Settings) (records : List Record) → IsLegal settings records
        → sent_units settings records ≡ sum_by (λ one. (sent_in settings records one).units) records }
{}
