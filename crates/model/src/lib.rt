// Definitions and theorems only: the log of document 01 without words or slices, every call as a function of it, and
// what holds of them. specs/ has a file for each of the document's modules.
#![tactic(auto)]
