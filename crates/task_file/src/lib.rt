// No code: a task's bytes, what makes a task well formed, and the proof that a file is accepted exactly when it is the bytes of such a task.
#![tactic(auto)]
