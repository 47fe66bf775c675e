// Document 01's P cases, and cases of document 02's No. 1, 2, 4, 5 and 7, as tables about the operations. There is no code here.
#![tactic(auto)]
