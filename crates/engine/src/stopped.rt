// What power leaves of a call or a recovery that it stops.
//
// `perform` does one write, and its contract says that it is the model's; so whoever stops calling it, as the
// simulator does where power goes, has done a part of the model's writes. These theorems say that what is left
// then is a world that can be reached, from which recovery goes on.
ghost use Rattle.engine.specs.Living.{StoppedCallLives, StoppedRecoveryLives};

pub fn stops_stand()
    ensures call { StoppedCallLives }
    ensures recovery { StoppedRecoveryLives }
{}
