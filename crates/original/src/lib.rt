// The judged Rust functions, transcribed as definitions in specs/, with the theorems that they equal `rules`, in specs/ and proofs/. No code.
#![tactic(auto)]
