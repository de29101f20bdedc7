ghost use Rattle.jd_spoken.specs.Laws.{ContractsSpeak};

/// The cases that are written at a method of whose JML no token is refused speak of what they may: of no local, of `this` where there is
/// a receiver, of the result in `ensures` alone and of what was thrown in `signals` alone (JML Reference Manual, 9.9 and 12.4.1).
pub fn contracts_speak()
    ensures { ContractsSpeak }
{}
