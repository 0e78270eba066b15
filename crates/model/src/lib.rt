// Document 01, with F-1 to F-8 of document 02, as definitions, and the theorems about them. There is no code here.
#![tactic(auto)]
