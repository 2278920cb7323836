// No code: what relaxing a bound, a floor or the marks does to the answers (Req 08), and the proof that it never hurts.
#![tactic(auto)]
