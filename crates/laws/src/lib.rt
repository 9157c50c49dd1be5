#![tactic(auto)]

// No code: the graph of a transducer, what each rule's verdict says of it, and the promise of the two widths, with their proofs. The
// docket's contracts cite them.
