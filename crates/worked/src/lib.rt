// No code: the worked cases of documents 01 and 02 as one list, and the proof that each is as the promises say.
#![tactic(auto)]
